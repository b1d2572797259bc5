// Text put piece after piece: the bytes of a slice, the word of a kind.
// Each function puts its text after the first n bytes of its room, and tells where it ends; what follows stays.
#![tactic(auto)]

ghost use Rattle.std.specs.Prelude.{◌≡◌, ◌+◌, ◌≤◌, length};
ghost use Rattle.model.specs.Kinds.{kind_name};
ghost use Rattle.pieces.specs.Inner.{Put};

use model::Kind;

// The bytes of s are put after the first n: by a loop, since `copy_from_slice` asks the linker for memmove, and C is promised that memcpy and memset are enough.
pub fn put_all(out: &mut [u8], n: usize, s: &[u8]) -> usize
    requires { n + length s.now ≤ length out.old }
    ensures { Put out.old n s.now out.new result }
{
    for i in 0..s.len() {
        out[n + i] = s[i];
    }
    n + s.len()
}

// The word of a kind, as the standard spells it: at most 8 characters.
pub fn put_kind(out: &mut [u8], n: usize, kind: Kind) -> usize
    requires { n + length (kind_name kind) ≤ length out.old }
    ensures put { Put out.old n (kind_name kind) out.new result }
    ensures upper_bound { result ≤ n + 8 }
{
    match kind {
        Kind::Ascii => put_all(out, n, b"ASCII"),
        Kind::Binary => put_all(out, n, b"binary"),
        Kind::Binary32 => put_all(out, n, b"binary32"),
    }
}

// How many bytes the word of a kind has.
pub fn kind_length(kind: Kind) -> usize
    ensures { result ≡ length (kind_name kind) }
{
    match kind {
        Kind::Ascii => 5,
        Kind::Binary => 6,
        Kind::Binary32 => 8,
    }
}
