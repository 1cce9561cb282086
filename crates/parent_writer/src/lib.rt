// The packet of fewest bits that gives shapes new parents, written into bytes that the caller lends. Everything is asked first, also
// whether the bytes are enough; then the bits of each position are written in their order.
#![tactic(auto)]

ghost use Rattle.std.specs.Prelude.{◌≡◌, ◌≤◌, ◌<◌, ◌||◌, eqb, length, IfOk};
ghost use Rattle.rules.specs.Reason.{IsRefusal, asked};
ghost use Rattle.rules.specs.Questions.{first_unmet};
ghost use Rattle.ranks.specs.Rank.{verdict};
ghost use Rattle.bit_writer.specs.Bits.{bytes_for, Stand};
ghost use Rattle.bit_writer.specs.Writer.{Fits, Wrote};
ghost use Rattle.parent_packet.specs.Packet.{position_bits, packet};
ghost use Rattle.parent_packet.specs.Shortest.{all_dynamic};
ghost use Rattle.parent_writer.specs.ParentWriter.{Codes, MayWrite, asked_first, parents_question, ParentsWritten};

use bit_writer::BitWriter;
use parser::tri;
use position::PositionSyntax;
use rules::{Outcome, Reason};

// What writing a packet answers: the outcome with its number, the position 0, and the length of the packet in bits, 0 if refused.
#[derive(Clone, Copy)]
pub struct PacketAnswer {
    pub outcome: Outcome,
    pub position: usize,
    pub length: usize,
}

// Bits as a number, and how many they are.
#[derive(Clone, Copy)]
struct Code {
    value: u64,
    width: usize,
}

// The bits of a position that gets a parent. Where it changes they are `updated`, `parent_update` and `absolute_parent`, the index unless
// there is none, and the flags of what could follow, which are 0.
fn position_code(shape: PositionSyntax, parent: usize) -> Code
    requires { parent < 64 }
    ensures { Codes result (position_bits shape parent) }
{
    if shape.parent == parent {
        return Code { value: 0, width: 1 };
    }
    let flags = if shape.range_dynamic { 4 } else { 3 };
    if parent == 0 {
        return Code {
            value: 0b111 << flags,
            width: 3 + flags,
        };
    }
    Code {
        value: (0b110 << 6 | parent as u64) << flags,
        width: 9 + flags,
    }
}

// Whether a position may get a parent: it has it already, or its parent is dynamic.
fn may_get(shape: PositionSyntax, parent: usize) -> bool
    ensures { result ≡ (eqb shape.parent parent || shape.parent_dynamic) }
{
    shape.parent == parent || shape.parent_dynamic
}

// Question 37.
fn all_dynamic(shapes: &[PositionSyntax], parents: &[usize]) -> bool
    requires { length shapes.now ≡ length parents.now }
    ensures { result ≡ all_dynamic shapes.now parents.now }
{
    for (i, shape) in shapes.iter().enumerate() {
        if !may_get(*shape, parents[i]) {
            return false;
        }
    }
    true
}

// Questions 8 and 9, of at most 63 new parents.
fn judged(parents: &[usize]) -> Result<(), Reason>
    requires { length parents.now ≤ 63 }
    ensures number { asked result ≡ verdict parents.now }
    ensures refuses { IsRefusal result }
{
    let mut known = [0; 63];
    tri!(ranks::judge(parents, &mut known[..parents.len()]));
    Ok(())
}

// Every question but the last.
fn questions(shapes: &[PositionSyntax], parents: &[usize]) -> Result<(), Reason>
    ensures number { asked result ≡ first_unmet (asked_first shapes.now parents.now) }
    ensures refuses { IsRefusal result }
{
    if shapes.len() != parents.len() {
        return Err(Reason::ListsDiffer);
    }
    tri!(update::undecided::shapes_question(shapes));
    if all_dynamic(shapes, parents) {
        return judged(parents);
    }
    Err(Reason::ParentNotDynamic)
}

// How many bits the packet has.
fn packet_length(shapes: &[PositionSyntax], parents: &[usize]) -> usize
    requires { MayWrite shapes.now parents.now }
    ensures { result ≡ length (packet shapes.now parents.now) }
{
    let mut length = 0;
    for (i, shape) in shapes.iter().enumerate() {
        let code = position_code(*shape, parents[i]);
        length += code.width;
    }
    length
}

// Every question, the last being whether `room` bytes are enough. It gives the length of the packet.
fn may_write(shapes: &[PositionSyntax], parents: &[usize], room: usize) -> Result<usize, Reason>
    ensures number { asked result ≡ parents_question shapes.now parents.now room }
    ensures refuses { IsRefusal result }
    ensures length { IfOk result (λ n. n ≡ length (packet shapes.now parents.now)) }
{
    tri!(questions(shapes, parents));
    let length = packet_length(shapes, parents);
    if room < bit_writer::bytes_for(length) {
        return Err(Reason::PacketTooLong);
    }
    Ok(length)
}

// Writes the bits of each position, where there is room for all.
fn write_positions(writer: &mut BitWriter<'_>, shapes: &[PositionSyntax], parents: &[usize])
    requires may { MayWrite shapes.now parents.now }
    requires fits { Fits (length (packet shapes.now parents.now)) writer.old }
    ensures { Wrote (packet shapes.now parents.now) writer.old writer.new }
{
    for (i, shape) in shapes.iter().enumerate() {
        let code = position_code(*shape, parents[i]);
        writer.write(code.value, code.width);
    }
}

// Writes the packet into bytes that are enough for it.
fn write_packet(shapes: &[PositionSyntax], parents: &[usize], bytes: &mut [u8])
    requires may { MayWrite shapes.now parents.now }
    requires room { bytes_for (length (packet shapes.now parents.now)) ≤ length bytes.old }
    ensures { Stand (packet shapes.now parents.now) bytes.old bytes.new }
{
    let mut writer = BitWriter::new(bytes);
    write_positions(&mut writer, shapes, parents);
    writer.finish();
}

// Writes, from the first bit of the lent bytes on, the packet of fewest bits that an update reads against the shapes to give them the
// new parents. The bits left in its last byte are 0; the bytes after it stay as they are, and all of them if it is refused.
pub fn write_parents(
    shapes: &[PositionSyntax],
    parents: &[usize],
    packet: &mut [u8],
) -> PacketAnswer
    ensures { ParentsWritten shapes.now parents.now packet.old result packet.new }
{
    match may_write(shapes, parents, packet.len()) {
        Ok(length) => {
            write_packet(shapes, parents, packet);
            PacketAnswer {
                outcome: Outcome::Read,
                position: 0,
                length,
            }
        }
        Err(reason) => PacketAnswer {
            outcome: Outcome::from(reason),
            position: 0,
            length: 0,
        },
    }
}
