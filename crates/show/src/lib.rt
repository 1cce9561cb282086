// A show file, and the text that `scene-show` prints of it.
#![tactic(auto)]

ghost use Rattle.std.specs.Prelude.{◌≡◌, ◌-◌, ◌≤◌, take};
ghost use Rattle.text.specs.Writer.{Fits, Wrote};
ghost use Rattle.show_header.specs.Header.{part_count, file_question};
ghost use Rattle.show_parts.specs.Parts.{packets};
ghost use Rattle.show.specs.Show.{updates_text, parts_text, show_text, file_outcome, ShowAnswered};

use position::PositionSyntax;
use rules::Outcome;
use show_header::ShowFile;
use text::{TextAnswer, Writer};

// The bytes that are lent for the text: enough for every file.
pub const TEXT: usize = 32768;

// Puts a line for each update, every one of which finds the shapes that the one before left, and then what is printed of the first
// `count` shapes.
fn put_updates(
    writer: &mut Writer<'_>,
    file: &ShowFile<'_>,
    shapes: &mut [PositionSyntax; 63],
    count: usize,
)
    requires few { count ≤ 63 }
    requires room { Fits
        (updates_text 1 (packets file.now.bytes.now (part_count file.now.bytes.now - 1) 1) (take count shapes.old))
        writer.old }
    ensures { Wrote
        (updates_text 1 (packets file.now.bytes.now (part_count file.now.bytes.now - 1) 1) (take count shapes.old))
        writer.old writer.new }
{
    for k in 1..file.part_count() {
        let graph = show_parts::show_update(file, k, shapes, count);
        show_lines::put_part(writer, k, graph.answer);
    }
    show_lines::put_shapes(writer, &shapes[..count]);
}

// Puts a line for part 0, and what follows it if the scene was read.
fn put_parts(writer: &mut Writer<'_>, file: &ShowFile<'_>)
    requires { Fits (parts_text file.now.bytes.now) writer.old }
    ensures { Wrote (parts_text file.now.bytes.now) writer.old writer.new }
{
    let mut scene = show_parts::show_scene(file);
    show_lines::put_part(writer, 0, scene.graph.answer);
    if scene.graph.answer.outcome.is_read() {
        put_updates(writer, file, &mut scene.shapes, scene.count);
    }
}

// Puts the text of a file, and tells whether it is a show.
fn put_show(writer: &mut Writer<'_>, file: &[u8]) -> Outcome
    requires { Fits (show_text file.now) writer.old }
    ensures outcome { result ≡ file_outcome (file_question file.now) }
    ensures text { Wrote (show_text file.now) writer.old writer.new }
{
    match ShowFile::new(file) {
        Ok(show) => {
            put_parts(writer, &show);
            Outcome::Read
        }
        Err(reason) => {
            show_lines::put_refused(writer, reason.number());
            Outcome::from(reason)
        }
    }
}

// The text of a show file, put at the beginning of the lent bytes, and its length. The bytes after it stay as they are.
pub fn show(file: &[u8], text: &mut [u8; TEXT]) -> TextAnswer
    ensures { ShowAnswered file.now text.old result text.new }
{
    let mut writer = Writer::new(text);
    let outcome = put_show(&mut writer, file);
    TextAnswer {
        outcome,
        position: 0,
        length: writer.length(),
    }
}
