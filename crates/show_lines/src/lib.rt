// The lines of the printed text of a show file: how a part ended, each position with its parent and its rank, the largest of these
// ranks, and a file that is refused.
#![tactic(auto)]

ghost use Rattle.std.specs.Prelude.{[], ◌∷◌, ◌≤◌, ◌≡◌, length};
ghost use Rattle.ranks.specs.KnownRanks.{KnownRanks};
ghost use Rattle.ranks.specs.Rank.{Declared, deepest, rank_of};
ghost use Rattle.text.specs.Text.{line};
ghost use Rattle.text.specs.Writer.{Fits, Wrote};
ghost use Rattle.show_lines.specs.Lines.{ending, part_line, position_line, position_lines, deepest_line, shapes_text};

use position::PositionSyntax;
use rules::{Answer, Outcome};
use text::Writer;

// Puts how a part ended.
fn put_ending(writer: &mut Writer<'_>, answer: Answer)
    requires { Fits (line (ending answer.outcome answer.position answer.fields)) writer.old }
    ensures { Wrote (line (ending answer.outcome answer.position answer.fields)) writer.old writer.new }
{
    let position = answer.position as u64;
    match answer.outcome {
        Outcome::Read => writer.put_two(b" read ", position, b" fields ", answer.fields as u64),
        Outcome::Refused(n) => writer.put_two(b" refused ", n as u64, b" at ", position),
        Outcome::Stopped(n) => writer.put_two(b" stopped ", n as u64, b" at ", position),
    }
}

// Puts the line of part `k`.
pub fn put_part(writer: &mut Writer<'_>, k: usize, answer: Answer)
    requires { Fits (part_line k answer) writer.old }
    ensures { Wrote (part_line k answer) writer.old writer.new }
{
    writer.put_number(b"part ", k as u64);
    put_ending(writer, answer);
}

// Puts the line of position `i`.
fn put_position(writer: &mut Writer<'_>, i: usize, parent: usize, rank: usize)
    requires { Fits (position_line i parent rank) writer.old }
    ensures { Wrote (position_line i parent rank) writer.old writer.new }
{
    writer.put_number(b"position ", i as u64);
    writer.put_two(b" parent ", parent as u64, b" rank ", rank as u64);
}

// The rank of a position, 0 if it has none.
fn rank_or_zero(parents: &[usize], known: &mut [u8], position: usize) -> usize
    requires known { KnownRanks parents.now known.old }
    requires declared { Declared parents.now position }
    ensures rank { result ≡ rank_of parents.now position }
    ensures known { KnownRanks parents.now known.new }
{
    match ranks::rank(parents, known, position) {
        Ok(rank) => rank,
        Err(_) => 0,
    }
}

// Puts a line for each position, and gives the largest rank in them, 0 if there are none.
fn put_positions(writer: &mut Writer<'_>, parents: &[usize], known: &mut [u8]) -> usize
    requires known { KnownRanks parents.now known.old }
    requires room { Fits (position_lines parents.now (length parents.now) 0) writer.old }
    ensures lines { Wrote (position_lines parents.now (length parents.now) 0) writer.old writer.new }
    ensures deepest { result ≡ deepest parents.now }
{
    let mut deepest = 0;
    for i in 0..parents.len() {
        let position = i + 1;
        let rank = rank_or_zero(parents, known, position);
        put_position(writer, position, parents[i], rank);
        deepest = ranks::larger(deepest, rank);
    }
    deepest
}

// Puts the line of the largest rank.
fn put_deepest(writer: &mut Writer<'_>, deepest: usize)
    requires { Fits (deepest_line deepest) writer.old }
    ensures { Wrote (deepest_line deepest) writer.old writer.new }
{
    writer.put_last(b"deepest ", deepest as u64);
}

// Puts what is printed of shapes.
pub fn put_shapes(writer: &mut Writer<'_>, shapes: &[PositionSyntax])
    requires few { length shapes.now ≤ 63 }
    requires room { Fits (shapes_text shapes.now) writer.old }
    ensures { Wrote (shapes_text shapes.now) writer.old writer.new }
{
    let mut parents = [0; 63];
    let mut known = [0; 63];
    let parents = &mut parents[..shapes.len()];
    validation::parents_of(shapes, parents);
    let deepest = put_positions(writer, parents, &mut known[..shapes.len()]);
    put_deepest(writer, deepest);
}

// Puts the line of a refused file.
pub fn put_refused(writer: &mut Writer<'_>, number: u16)
    requires { Fits (line (("file refused ", number) ∷ [])) writer.old }
    ensures { Wrote (line (("file refused ", number) ∷ [])) writer.old writer.new }
{
    writer.put_last(b"file refused ", number as u64);
}
