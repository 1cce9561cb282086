// Validation of a scene's parents: passive.rs, `validate_graph`.
#![tactic(auto)]

ghost use Rattle.std.specs.Prelude.{◌≡◌, ◌≤◌, length, take, IfOk};
ghost use Rattle.rules.specs.Reason.{IsRefusal, asked};
ghost use Rattle.ranks.specs.Rank.{verdict};
ghost use Rattle.validation.specs.Validation.{parents, largest_rank, validation_reading, graph_answer, graph_ended};

use parser::Parser;
use position::PositionSyntax;
use rules::{Answer, Outcome, Reason};

// The answer of a reading that ends in validation, with the largest rank of the shapes that it gives, 0 unless it was read.
#[derive(Clone, Copy)]
pub struct GraphAnswer {
    pub answer: Answer,
    pub deepest: usize,
}

// The answer of a reading that came to a largest rank, or to a reason.
pub fn graph_ended(parser: &Parser<'_>, ended: Result<usize, Reason>) -> GraphAnswer
    ensures { result ≡ graph_ended ended parser.now.position parser.now.fields }
{
    match ended {
        Ok(deepest) => GraphAnswer {
            answer: parser.answer(Ok(())),
            deepest,
        },
        Err(reason) => GraphAnswer {
            answer: parser.answer(Err(reason)),
            deepest: 0,
        },
    }
}

// The parents alone, each put into the place of its shape.
pub fn parents_of(shapes: &[PositionSyntax], out: &mut [usize])
    requires { length out.old ≡ length shapes.now }
    ensures { out.new ≡ parents shapes.now }
{
    for (i, parent) in out.iter_mut().enumerate() {
        *parent = shapes[i].parent;
    }
}

// What validation says of shapes: it is asked after the last of them is read. It gives their largest rank.
pub fn validated(shapes: &[PositionSyntax]) -> Result<usize, Reason>
    requires { length shapes.now ≤ 63 }
    ensures number { asked result ≡ verdict (parents shapes.now) }
    ensures refuses { IsRefusal result }
    ensures deepest { IfOk result (λ d. d ≡ largest_rank shapes.now) }
{
    let mut parents = [0; 63];
    let mut known = [0; 63];
    let parents = &mut parents[..shapes.len()];
    parents_of(shapes, parents);
    ranks::judge(parents, &mut known[..shapes.len()])
}

// The answer at a position, with no fields.
fn answer(ended: Result<usize, Reason>, position: usize) -> GraphAnswer
    ensures { result ≡ graph_ended ended position 0 }
{
    let (outcome, deepest) = match ended {
        Ok(deepest) => (Outcome::Read, deepest),
        Err(reason) => (Outcome::from(reason), 0),
    };
    GraphAnswer {
        answer: Answer {
            outcome,
            position,
            fields: 0,
        },
        deepest,
    }
}

// Validation alone, of shapes of any number: refused by 2 if there are more than 63.
pub fn validate(shapes: &[PositionSyntax], at: usize) -> GraphAnswer
    ensures { result ≡ graph_answer (validation_reading (length shapes.now) shapes.now at) }
{
    if shapes.len() > Parser::POSITIONS {
        return answer(Err(Reason::BadShapes), 0);
    }
    let ended = validated(shapes);
    answer(ended, at)
}

// The same of the first `count` of 63 shapes.
pub fn validate_graph(shapes: [PositionSyntax; 63], count: usize, at: usize) -> GraphAnswer
    ensures { result ≡ graph_answer (validation_reading count (take count shapes) at) }
{
    if count > Parser::POSITIONS {
        return answer(Err(Reason::BadShapes), 0);
    }
    validate(&shapes[..count], at)
}
