// A line of a configuration written again: how long it is, and its bytes.
// Each function gives exactly what the definition of its name says; the laws of proofs/ say what its fields are, and that writing it again changes nothing.
#![tactic(auto)]

ghost use Rattle.std.specs.Prelude.{◌≡◌, ◌+◌, ◌^◌, ◌≤◌, ◌<◌, length};
ghost use Rattle.pieces.specs.Inner.{Put};
ghost use Rattle.rewrite_lines.specs.Lines.{is_number, fields_text, line_text};
ghost use Rattle.rewrite_lines.specs.Inner.{is_left_out, next_field};

use model::Kind;

// What is done with a line: it stays, or its numbers lose their leading spaces, or it becomes the kind's word.
#[derive(Clone, Copy)]
pub enum LineSort {
    Kept,
    // A line all of whose fields are numbers or codes.
    Numbers,
    Analog,
    Status,
    Word,
}

// Whether field i of a line, counted from 1, is a number or a code.
#[tactic(auto, unfolding(crate::specs::Lines::is_number))]
fn is_number(sort: LineSort, i: usize) -> bool
    ensures { result ≡ is_number sort i }
{
    match sort {
        LineSort::Kept | LineSort::Word => false,
        LineSort::Numbers => true,
        LineSort::Analog => i == 1 || 6 <= i && i <= 12,
        LineSort::Status => i == 1,
    }
}

// Whether a byte of field i is left out, where `leads` says that nothing but spaces stands before it in the field.
#[tactic(auto, unfolding(crate::specs::Inner::is_left_out))]
fn is_left_out(sort: LineSort, i: usize, leads: bool, b: u8) -> bool
    ensures { result ≡ is_left_out sort i leads b }
{
    leads && b == 32 && is_number(sort, i)
}

// The field of the byte after a byte that stays in field i.
#[tactic(auto, unfolding(crate::specs::Inner::next_field))]
fn next_field(i: usize, b: u8) -> usize
    requires { i + 1 < 2 ^ 64 }
    ensures { result ≡ next_field i b }
{
    if b == 44 { i + 1 } else { i }
}

// How many bytes the fields of a line take as they are written: no more than the line has.
fn fields_length(sort: LineSort, line: &[u8]) -> usize
    ensures value { result ≡ length (fields_text sort line.now) }
    ensures upper_bound { result ≤ length line.now }
{
    let mut size = 0;
    let mut field = 1;
    let mut leads = true;
    for &b in line {
        if !is_left_out(sort, field, leads, b) {
            size += 1;
            field = next_field(field, b);
            leads = b == 44;
        }
    }
    size
}

// The fields of a line are put as they are written.
fn put_fields(out: &mut [u8], n: usize, sort: LineSort, line: &[u8]) -> usize
    requires { n + length (fields_text sort line.now) ≤ length out.old }
    ensures { Put out.old n (fields_text sort line.now) out.new result }
{
    let mut to = n;
    let mut field = 1;
    let mut leads = true;
    for &b in line {
        if !is_left_out(sort, field, leads, b) {
            out[to] = b;
            to += 1;
            field = next_field(field, b);
            leads = b == 44;
        }
    }
    to
}

// How many bytes a line takes as it is written: no more than it has, or than the word of a kind.
#[tactic(auto, unfolding(crate::specs::Lines::line_text))]
pub fn line_length(kind: Kind, sort: LineSort, line: &[u8]) -> usize
    ensures value { result ≡ length (line_text kind sort line.now) }
    ensures upper_bound { result ≤ length line.now + 8 }
{
    match sort {
        LineSort::Kept => line.len(),
        LineSort::Word => pieces::kind_length(kind),
        _ => fields_length(sort, line),
    }
}

// A line is put as it is written.
#[tactic(auto, unfolding(crate::specs::Lines::line_text))]
pub fn put_line(out: &mut [u8], n: usize, kind: Kind, sort: LineSort, line: &[u8]) -> usize
    requires { n + length (line_text kind sort line.now) ≤ length out.old }
    ensures { Put out.old n (line_text kind sort line.now) out.new result }
{
    match sort {
        LineSort::Kept => pieces::put_all(out, n, line),
        LineSort::Word => pieces::put_kind(out, n, kind),
        _ => put_fields(out, n, sort, line),
    }
}
