// Replays recorded answers of the oracle: those of the Rust, and for name words, which it does not have, those of
// docs/FIELDS.md. Standard input holds records; each is run, and its answer, its largest rank, its shapes, its field words and
// the words after them are held to what the oracle gave, and so are the text of a name or of a show, or the packet of new
// parents, and the bytes after it. `oracle/README.md` says how a record is laid out: a head of 34 bytes, the input, what is
// handed in, the largest rank and the shapes after the call, and the words of the recorded fields, the text or the packet.
#![tactic(auto)]

use parser::Parser;
use position::PositionSyntax;
use record::{Head, Kind, NoRecord, Reading};
use rules::Answer;
use std::alloc::Global;
use std::io::{self, Read};
use validation::GraphAnswer;

// The most bytes of an input, or that are lent for a name or a packet.
const BYTES: usize = 262144;

// The most words that are lent for fields.
const WORDS: usize = 98304;

// The most shapes that are to get new parents, and the most new parents.
const WANTED: usize = 80;

// How many records were run, and how many of them were wrong.
#[derive(Clone, Copy)]
struct Tally {
    run: u64,
    wrong: u64,
}

impl Tally {
    // One record more, right or wrong.
    fn counted(self, right: bool) -> Tally {
        Tally {
            run: self.run.wrapping_add(1),
            wrong: self.wrong.wrapping_add(u64::from(!right)),
        }
    }

    // What follows is no record, which is wrong.
    fn broken_off(self) -> Tally {
        Tally {
            wrong: self.wrong.wrapping_add(1),
            ..self
        }
    }
}

// An answer, and whether the largest rank and the shapes after the call are the recorded ones.
#[derive(Clone, Copy)]
struct Ran {
    answer: Answer,
    same: bool,
}

// Operations on one reading, from its beginning.
fn run_fields<R: Read>(reader: &mut R, head: &Head, bytes: &[u8], words: &mut [u64]) -> Ran {
    let mut parser = Parser::new(bytes, words, head.recording(), 0);
    let begun = parser.entry(Ok(()), head.offset());
    let outcome = script::operations(reader, &mut parser, begun, head.count());
    Ran {
        answer: Answer {
            outcome,
            ..parser.answer(Ok(()))
        },
        same: true,
    }
}

// Whether the next byte of a record is the largest rank of an answer.
fn is_deepest<R: Read>(reader: &mut R, graph: GraphAnswer) -> bool {
    record::next_rank(reader) == graph.deepest
}

fn run_scene<R: Read>(reader: &mut R, head: &Head, bytes: &[u8], words: &mut [u64]) -> Ran {
    let scene = scene::read_scene(bytes, head.offset(), head.recording(), words);
    let deepest = is_deepest(reader, scene.graph);
    let n = record::next_count(reader);
    let default = [PositionSyntax::default(); 63];
    let same = recorded::same_shapes(reader, scene.shapes, n, default);
    Ran {
        answer: scene.graph.answer,
        same: deepest && same && scene.count == n,
    }
}

fn run_update<R: Read>(reader: &mut R, head: &Head, bytes: &[u8], words: &mut [u64]) -> Ran {
    let n = head.count();
    let before = record::next_shapes(reader, n);
    let update = update::graph_update(bytes, head.offset(), head.recording(), words, before, n);
    let deepest = is_deepest(reader, update.graph);
    let same = recorded::same_shapes(reader, update.shapes, n, before);
    Ran {
        answer: update.graph.answer,
        same: deepest && same,
    }
}

fn run_position<R: Read>(reader: &mut R, head: &Head, bytes: &[u8], words: &mut [u64]) -> Ran {
    let before = record::next_shape(reader);
    let full = head.count() == 1;
    let position = position_alone::read_position(
        bytes,
        head.offset(),
        head.recording(),
        words,
        before,
        full,
    );
    Ran {
        answer: position.answer,
        same: recorded::same_shape(position.shape, record::next_shape(reader)),
    }
}

fn run_validation<R: Read>(reader: &mut R, head: &Head) -> Ran {
    let n = head.count();
    let shapes = record::next_shapes(reader, n);
    let graph = validation::validate_graph(shapes, n, head.offset());
    Ran {
        answer: graph.answer,
        same: is_deepest(reader, graph),
    }
}

// A metadata configuration, which gives no shapes.
fn run_metadata(head: &Head, bytes: &[u8], words: &mut [u64]) -> Ran {
    Ran {
        answer: metadata::read_metadata(bytes, head.offset(), head.recording(), words),
        same: true,
    }
}

// The words that a reading of so many fields has recorded; no reading has more fields than the limit.
fn written(recording: bool, fields: usize) -> usize {
    if recording {
        5 * fields.min(Parser::FIELDS)
    } else {
        0
    }
}

// Whether a name, whose record has the word in the place of the offset, is answered as recorded in the bytes that it is lent, if
// there are as many.
fn name_agrees<R: Read>(reader: &mut R, head: &Head, bytes: &mut [u8]) -> Result<bool, NoRecord> {
    let lent = bytes.get_mut(..head.room()).ok_or(NoRecord)?;
    recorded::clear(lent);
    let answer = names::name_text(head.word(), lent);
    Ok(recorded::text_agrees(reader, head, answer, lent))
}

// Whether the text of a show file is as recorded, if there are as many bytes as the file has.
fn show_agrees<R: Read>(reader: &mut R, head: &Head, bytes: &mut [u8]) -> Result<bool, NoRecord> {
    let file = bytes.get_mut(..head.size()).ok_or(NoRecord)?;
    let got = record::read_bytes(reader, file);
    let mut text = [0; show::TEXT];
    recorded::clear(&mut text);
    let answer = show::show(file, &mut text);
    let same = recorded::text_agrees(reader, head, answer, &text);
    Ok(same && got == file.len())
}

// Whether the packet that gives shapes new parents is as recorded, in the bytes that it is lent, if there are as many.
fn parents_agree<R: Read>(reader: &mut R, head: &Head, bytes: &mut [u8]) -> Result<bool, NoRecord> {
    let shapes = record::next_shapes::<WANTED, R>(reader, head.count());
    let parents = record::next_parents::<WANTED, R>(reader, head.parents());
    let shapes = shapes.get(..head.count()).ok_or(NoRecord)?;
    let parents = parents.get(..head.parents()).ok_or(NoRecord)?;
    let lent = bytes.get_mut(..head.room()).ok_or(NoRecord)?;
    recorded::clear(lent);
    let written = parent_writer::write_parents(shapes, parents, lent);
    let answer = Answer {
        outcome: written.outcome,
        position: written.position,
        fields: written.length,
    };
    Ok(recorded::packet_agrees(reader, head, answer, lent))
}

// Whether a reading is answered as recorded, in the input and the words that it is lent, if there are as many.
fn reading_agrees<R: Read>(
    reader: &mut R,
    reading: Reading,
    head: &Head,
    bytes: &mut [u8],
    words: &mut [u64],
) -> Result<bool, NoRecord> {
    let bytes = bytes.get_mut(..head.size()).ok_or(NoRecord)?;
    let words = words.get_mut(..head.room()).ok_or(NoRecord)?;
    let got = record::read_bytes(reader, bytes);
    recorded::clear(words);
    let ran = match reading {
        Reading::Fields => run_fields(reader, head, bytes, words),
        Reading::Scene => run_scene(reader, head, bytes, words),
        Reading::Update => run_update(reader, head, bytes, words),
        Reading::Position => run_position(reader, head, bytes, words),
        Reading::Validation => run_validation(reader, head),
        Reading::Metadata => run_metadata(head, bytes, words),
    };
    let n = written(head.recording(), ran.answer.fields);
    let same = recorded::is_recorded(reader, words, n);
    Ok(recorded::answer_agrees(head, ran.answer) && ran.same && got == bytes.len() && same)
}

// Whether the next record is answered as it says, if there is one more.
fn next_agrees<R: Read>(
    reader: &mut R,
    bytes: &mut [u8],
    words: &mut [u64],
) -> Result<Option<bool>, NoRecord> {
    let Some(head) = Head::next(reader)? else {
        return Ok(None);
    };
    let agrees = match head.kind()? {
        Kind::Reading(reading) => reading_agrees(reader, reading, &head, bytes, words)?,
        Kind::Name => name_agrees(reader, &head, bytes)?,
        Kind::Show => show_agrees(reader, &head, bytes)?,
        Kind::Parents => parents_agree(reader, &head, bytes)?,
    };
    Ok(Some(agrees))
}

// All records, of which there are fewer than 2^32.
fn replay<R: Read>(alloc: Global, reader: &mut R) -> io::Result<Tally> {
    let mut bytes = vec![in alloc; 0u8; BYTES]?;
    let mut words = vec![in alloc; 0u64; WORDS]?;
    let mut tally = Tally { run: 0, wrong: 0 };
    for _ in 0..u32::MAX {
        match next_agrees(reader, &mut bytes, &mut words) {
            Ok(Some(right)) => tally = tally.counted(right),
            Ok(None) => break,
            Err(NoRecord) => return Ok(tally.broken_off()),
        }
    }
    Ok(tally)
}

fn main(rt: HostRuntime) -> io::Result<()> {
    let tally = replay(rt.alloc(), &mut rt.stdin())?;
    println!(rt; "{} replayed, {} wrong", tally.run, tally.wrong)
}
