// The ranks of positions, from the list of their parents alone: `parents[i]` is the parent of position `i + 1`, and 0 is none.
//
// `known` has a place for each position, of at most 255: its rank, or 0 where none is known. A chain is followed up to the first
// position whose rank is known, and the ranks of those before it are known then. So, where all have ranks, none is passed more than
// twice.
#![tactic(auto)]

ghost use Rattle.std.specs.Prelude.{◌≡◌, max, Ok, IfOk};
ghost use Rattle.rules.specs.Reason.{IsRefusal, asked};
ghost use Rattle.ranks.specs.Rank.{Declared, chain, deepest, verdict};
ghost use Rattle.ranks.specs.KnownRanks.{KnownRanks};

use parser::tri;
use rules::Reason;

// What the chain of the number `first` does: it ends at 0, after as many positions as the rank says; it leaves the declared numbers;
// or it returns to a position. A chain of more numbers than there are positions has one of them twice.
fn climb(parents: &[usize], known: &[u8], first: usize) -> Result<usize, Reason>
    requires { KnownRanks parents.now known.now }
    ensures { result ≡ chain parents.now first }
{
    let mut at = first;
    for passed in 0..parents.len() + 1 {
        if at == 0 {
            return Ok(passed);
        }
        if at > parents.len() {
            return Err(Reason::ParentUndeclared);
        }
        let place = at - 1;
        let rank = known[place] as usize;
        if rank > 0 {
            return Ok(passed + rank);
        }
        at = parents[place];
    }
    Err(Reason::ParentsInCircle)
}

// Makes the ranks known of the positions of a chain, from one of rank `rank` up to the first that is known.
fn mark(parents: &[usize], known: &mut [u8], first: usize, rank: usize)
    requires known { KnownRanks parents.now known.old }
    requires rank { Ok rank ≡ chain parents.now first }
    ensures { KnownRanks parents.now known.new }
{
    let mut at = first;
    for passed in 0..rank {
        let place = at - 1;
        if known[place] > 0 {
            return;
        }
        known[place] = (rank - passed) as u8;
        at = parents[place];
    }
}

// The rank of a position, if it has one: one more than that of its parent.
pub fn rank(parents: &[usize], known: &mut [u8], position: usize) -> Result<usize, Reason>
    requires known { KnownRanks parents.now known.old }
    requires declared { Declared parents.now position }
    ensures rank { result ≡ chain parents.now position }
    ensures known { KnownRanks parents.now known.new }
{
    let place = position - 1;
    if known[place] > 0 {
        return Ok(known[place] as usize);
    }
    let parent = parents[place];
    let above = tri!(climb(parents, known, parent));
    mark(parents, known, parent, above);
    let rank = above + 1;
    known[place] = rank as u8;
    Ok(rank)
}

// The larger of two ranks.
pub fn larger(one: usize, other: usize) -> usize
    ensures { result ≡ max one other }
{
    if one < other { other } else { one }
}

// What is said of a list of parents: the lowest-numbered position without a rank decides, and if there is none, the largest rank is
// given.
pub fn judge(parents: &[usize], known: &mut [u8]) -> Result<usize, Reason>
    requires { KnownRanks parents.now known.old }
    ensures number { asked result ≡ verdict parents.now }
    ensures refuses { IsRefusal result }
    ensures deepest { IfOk result (λ d. d ≡ deepest parents.now) }
{
    let mut deepest = 0;
    for i in 0..parents.len() {
        let rank = tri!(rank(parents, known, i + 1));
        deepest = larger(deepest, rank);
    }
    Ok(deepest)
}
