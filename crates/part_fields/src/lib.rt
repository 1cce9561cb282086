// One part of a show file, read with its fields after the parts before it: what `scene-fields part K` lists.
#![tactic(auto)]

ghost use Rattle.std.specs.Prelude.{◌≡◌, ◌-◌, ◌<◌, ◌≤◌, take};
ghost use Rattle.book.specs.Book.{show, book_shapes};
ghost use Rattle.show_header.specs.Header.{part_count};
ghost use Rattle.show_parts.specs.Parts.{packets};
ghost use Rattle.part_fields.specs.Part.{part_from, update_listed, sound_listed, part_listed, PartAnswered};

use position::PositionSyntax;
use rules::{Answer, Outcome};
use show_header::ShowFile;

// Why a part of a show is not read: there is no such part, or part 0 is not read.
#[derive(Clone, Copy)]
pub enum NotRead {
    NoPart,
    NoScene,
}

// The first `count` shapes, those of the scene, become those that the updates before part `k` leave.
fn shapes_before(file: &ShowFile<'_>, k: usize, shapes: &mut [PositionSyntax; 63], count: usize)
    requires part { k < part_count file.now.bytes.now }
    requires few { count ≤ 63 }
    ensures { take count shapes.new ≡ book_shapes show (packets file.now.bytes.now (k - 1) 1) (take count shapes.old) }
{
    for i in 1..k {
        show_parts::show_update(file, i, shapes, count);
    }
}

// Part `k`, an update, if part 0 is read.
fn read_update(
    file: &ShowFile<'_>,
    k: usize,
    offset: usize,
    words: &mut [u64],
) -> Result<Answer, NotRead>
    requires { k < part_count file.now.bytes.now }
    ensures { PartAnswered
        (update_listed file.now.bytes.now k (part_from file.now.bytes.now k offset words.old))
        words.old result words.new }
{
    let mut scene = show_parts::show_scene(file);
    if !scene.graph.answer.outcome.is_read() {
        return Err(NotRead::NoScene);
    }
    let count = scene.count;
    shapes_before(file, k, &mut scene.shapes, count);
    let graph = show_parts::update_part(file, k, offset, true, words, &mut scene.shapes, count);
    Ok(graph.answer)
}

// Part `k` of a show.
fn read_sound(
    file: &ShowFile<'_>,
    k: usize,
    offset: usize,
    words: &mut [u64],
) -> Result<Answer, NotRead>
    ensures { PartAnswered
        (sound_listed file.now.bytes.now k (part_from file.now.bytes.now k offset words.old))
        words.old result words.new }
{
    if file.part_count() <= k {
        return Err(NotRead::NoPart);
    }
    if k == 0 {
        let scene = show_parts::scene_part(file, offset, true, words);
        return Ok(scene.graph.answer);
    }
    read_update(file, k, offset, words)
}

// Part `k` of a show file from its bit `offset` on, with recording, after the parts before it. Of a file that is not a show the
// answer is its refusal.
pub fn read_part(file: &[u8], k: usize, offset: usize, words: &mut [u64]) -> Result<Answer, NotRead>
    ensures { PartAnswered (part_listed file.now k (part_from file.now k offset words.old)) words.old result words.new }
{
    match ShowFile::new(file) {
        Ok(show) => read_sound(&show, k, offset, words),
        Err(reason) => Ok(Answer {
            outcome: Outcome::from(reason),
            position: 0,
            fields: 0,
        }),
    }
}
