ghost use Rattle.std.specs.Prelude.{◌≡◌, ℕ, ◌+◌, ◌*◌, ◌<◌, length, slice_index, All, IfOk};
ghost use Rattle.std.specs.Int.{bit_at};
ghost use Rattle.board_turn.specs.Shown.{IsOf, IsIdle, claims_of};

use board_turn::{Board, Parts, Pass, PutRefused, Report};
use kmc_base::OutOfMemory;
use std::alloc::Global;
use std::process::Abort;
use std::test::Fail;
use std::thread;
use std::thread::Threads;

// Pass 1 has the turn, and nothing is done.
const FIRST_HAS_IT: u64 = 281474976710656;

// Five pieces, each with the number that was put for it.
#[derive(Drop)]
struct Tally {
    done: u64,
    sums: Vec<u64>,
}

#[derive(Debug, Drop)]
struct Found {
    piece: u32,
    value: u64,
}

impl Parts for Tally {
    ghost use Rattle.std.proofs.Props.{props};

    type Key = ();

    type Finding = Found;

    // The sum of a done piece is seven times its number, and that of any other is 0.
    ghost is_patch = { λ tally key. (length tally.sums.items ≡ 5) × ((p : ℕ) → p < 5 → slice_index tally.sums.items p ≡ bit_at tally.done p * (7 * p)) };

    ghost is_one_fact = { λ tally key. Prim.hlevel props };

    ghost is_right = { λ key found. (found.piece < 5) × (found.value ≡ 7 * found.piece) };

    ghost done_set = { λ tally. tally.done };

    ghost piece_of = { λ found. found.piece };

    fn piece(finding: &Found) -> u32 {
        finding.piece
    }

    fn put(&mut self, finding: Found) -> Result<(), (Found, OutOfMemory)> {
        self.sums[finding.piece as usize] = finding.value;
        self.done |= 1 << finding.piece;
        Ok(())
    }

    fn done(&self) -> u64 {
        self.done
    }
}

// Nothing is done.
fn blank(alloc: Global) -> Result<Tally, OutOfMemory>
    ensures { IfOk result (λ tally. (tally.done ≡ 0) × ⟦<Tally as Parts>⟧.is_patch tally tt) }
{
    let sums = Vec::from_array(alloc, [0; 5])?;
    Ok(Tally { done: 0, sums })
}

fn sevens(piece: u32) -> Found
    requires { piece < 5 }
    ensures { (result.piece ≡ piece) × (result.value ≡ 7 * piece) }
{
    let value = u64::from(piece) * 7;
    Found { piece, value }
}

// Each of two passes claims a piece. While the first has the turn, it puts its finding, and the second puts nothing.
fn row(rt: &impl Abort, alloc: Global, once_more: bool) -> Result<(Tally, Report), OutOfMemory> {
    let tally = blank(alloc)?;
    let (board, mut owner, mut passes) = match Board::new(alloc, tally, (), 5, 2) {
        Ok(made) => made,
        Err((_tally, error)) => return Err(error),
    };
    let Some(mut second) = passes.pop() else {
        unreachable!()
    };
    let Some(mut first) = passes.pop() else {
        unreachable!()
    };
    passes.destroy_empty();

    assert!(rt; board.claim(&mut first) == Some(0));
    assert!(rt; board.claim(&mut second) == Some(1));
    let Ok(mut turn) = board.take(&mut first) else {
        panic!(rt; "the turn is free")
    };
    match board.try_put(&mut second, sevens(1)) {
        Err(PutRefused::Busy { was, seen, finding }) => assert!(rt;
            (was, seen, finding.piece, finding.value) == (FIRST_HAS_IT, FIRST_HAS_IT, 1, 7)
        ),
        _ => panic!(rt; "the first has the turn"),
    }
    assert!(rt; turn.put(sevens(0)).is_ok());
    board.give(&mut first, turn);
    assert!(rt; board.try_put(&mut second, sevens(1)).is_ok());
    if once_more {
        assert!(rt; board.claim(&mut first) == Some(2));
    }
    owner.join(&board, first);
    owner.join(&board, second);
    Ok(board.close(owner))
}

#[test]
fn a_put_while_another_has_the_turn(rt: HostRuntime) -> Result<(), Fail> {
    for (once_more, claimed) in [(false, 3), (true, 7)] {
        let (tally, report) = row(&rt, rt.alloc(), once_more)?;
        assert_eq!(rt; report, Report { claimed, done: 3 });
        assert_eq!(rt; tally.sums.as_slice(), [0, 7, 0, 0, 0].as_slice());
    }
    Ok(())
}

// Puts the finding, however often another pass has the turn.
fn put(board: &Board<Tally>, pass: &mut Pass<Tally>, piece: u32)
    requires own { IsOf board.now.table.shared.table_id board.now.table.shared.key pass.old.seat }
    requires idle { IsIdle pass.old.seat }
    requires claimed { (piece < 5) × (bit_at (claims_of pass.old.seat) piece ≡ 1) }
    ensures own { IsOf board.now.table.shared.table_id board.now.table.shared.key pass.new.seat }
    ensures idle { IsIdle pass.new.seat }
{
    for _ in 0..u64::MAX {
        if board.try_put(pass, sevens(piece)).is_ok() {
            return;
        }
    }
}

// Claims pieces and puts them until each is claimed.
fn work(board: &Board<Tally>, pass: &mut Pass<Tally>)
    requires own { IsOf board.now.table.shared.table_id board.now.table.shared.key pass.old.seat }
    requires five { board.now.pieces ≡ 5 }
    requires idle { IsIdle pass.old.seat }
    ensures own { IsOf board.now.table.shared.table_id board.now.table.shared.key pass.new.seat }
    ensures idle { IsIdle pass.new.seat }
{
    for _ in 0..5 {
        let Some(piece) = board.claim(pass) else {
            return;
        };
        put(board, pass, piece);
    }
}

// Each pass works in a thread of its own.
fn run<R: Threads + Sync>(rt: &R, board: &Board<Tally>, passes: &mut [Pass<Tally>])
    requires five { board.now.pieces ≡ 5 }
    requires passes { All (λ pass. IsOf board.now.table.shared.table_id board.now.table.shared.key pass.seat × IsIdle pass.seat) passes.old }
    ensures passes { All (λ pass. IsOf board.now.table.shared.table_id board.now.table.shared.key pass.seat × IsIdle pass.seat) passes.new }
    ensures len { length passes.new ≡ length passes.old }
{
    thread::for_each_mut(
        rt,
        passes,
        3,
        &|_, pass: &mut Pass<Tally>| work(board, pass),
    );
}

#[test]
fn threads_put_each_piece(rt: HostRuntime) -> Result<(), Fail> {
    let tally = blank(rt.alloc())?;
    let (board, mut owner, mut passes) = match Board::new(rt.alloc(), tally, (), 5, 3) {
        Ok(made) => made,
        Err((_tally, error)) => return Err(error.into()),
    };
    run(&rt, &board, passes.as_mut_slice());
    while let Some(pass) = passes.pop() {
        owner.join(&board, pass);
    }
    passes.destroy_empty();
    let (tally, report) = board.close(owner);
    assert_eq!(rt;
        report,
        Report {
            claimed: 31,
            done: 31
        }
    );
    assert_eq!(rt; tally.sums.as_slice(), [0, 7, 14, 21, 28].as_slice());
    Ok(())
}
