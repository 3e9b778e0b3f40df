// The world of a replay, which steps change in place.
ghost use Rattle.std.specs.Prelude.{◌≡◌, ◌<◌, ◌^◌, ◌==◌, IfOk, IsErrOf, IsFalse, MatchOption, OnOk, Some, None, length, map, slice_index_or};
ghost use Rattle.ps_trace.specs.Replay.{along_first, at_error, entered, MoveFits, moved_on, TriesFit};
ghost use Rattle.ps_trace.specs.inner.Leaving.{HoldsAll};
ghost use Rattle.ps_trace.specs.inner.Trying.{AreSized, IsSizedWorld, seat_of, seats_from, seen_from, world_from};

use crate::leaving::Leaving;
use crate::seat::Seat;
use crate::trying::go_along_first;
use ps_command::{RunEnd, Runner, State};
use ps_graph::Graph;
use ps_list::Sequence;
use std::alloc::{AllocError, Global};

// The globals, the threads, and room for what a step needs.
#[derive(Drop)]
pub(crate) struct Walk {
    pub(crate) runner: Runner,
    pub(crate) seats: Vec<Seat>,
    pub(crate) havocs: Vec<i128>,
}

impl Walk {
    // Each thread of the state at the location.
    pub(crate) fn new(alloc: Global, state: State, location: u32) -> Result<Walk, AllocError>
        ensures { IfOk result (λ walk.
            world_from walk.runner.globals walk.seats.items ≡ entered location state) }
    {
        Ok(Walk {
            runner: Runner::new(alloc, state.globals.into_list()),
            seats: seats_at(alloc, state.locals.into_list(), location)?,
            havocs: Vec::new(alloc),
        })
    }

    // Takes a step of the thread with these choices, and answers the location to which it comes, or `None` where there is no
    // such step.
    pub(crate) fn take(
        &mut self,
        graph: &Graph,
        leaving: &Leaving,
        thread: u32,
        choices: &[i128],
    ) -> Result<Option<u32>, RunEnd>
        requires leaving { HoldsAll graph.now.edges leaving.now.lists.items }
        requires sized { IsSizedWorld graph.now.setting
            (world_from self.old.runner.globals self.old.seats.items) }
        ensures moves { IfOk result (λ to. MatchOption to
            (moved_on graph.now (thread, choices.now)
            (world_from self.old.runner.globals self.old.seats.items) ≡ None)
            (λ b. moved_on graph.now (thread, choices.now)
            (world_from self.old.runner.globals self.old.seats.items)
            ≡ Some (world_from self.new.runner.globals self.new.seats.items))) }
        ensures error { IfOk result (λ to. MatchOption to Unit
            (λ b. IsFalse (at_error (world_from self.old.runner.globals self.old.seats.items))
            → at_error (world_from self.new.runner.globals self.new.seats.items) ≡ (b == 1))) }
        ensures sized { OnOk result (IsSizedWorld graph.now.setting
            (world_from self.new.runner.globals self.new.seats.items)) }
        ensures fits { OnOk result (MoveFits graph.now (thread, choices.now)
            (world_from self.old.runner.globals self.old.seats.items)) }
        ensures past { IsErrOf result RunEnd.Past128 → ¬ MoveFits graph.now (thread, choices.now)
            (world_from self.old.runner.globals self.old.seats.items) }
    {
        let thread = thread as usize;
        if thread < self.seats.len() {
            move_seat(
                &mut self.runner,
                &mut self.seats[thread],
                graph,
                leaving,
                choices,
                &mut self.havocs,
            )
        } else {
            Ok(None)
        }
    }
}

// Takes a step of the thread, and answers the location to which it comes, or `None` where there is no such step.
fn move_seat(
    runner: &mut Runner,
    seat: &mut Seat,
    graph: &Graph,
    leaving: &Leaving,
    choices: &[i128],
    havocs: &mut Vec<i128>,
) -> Result<Option<u32>, RunEnd>
    requires leaving { HoldsAll graph.now.edges leaving.now.lists.items }
    requires sized { AreSized graph.now.setting (seen_from runner.old.globals seat.old) }
    ensures moves { IfOk result (λ to. MatchOption to
        (along_first graph.now.setting.commands graph.now.edges seat.old.at
        (seen_from runner.old.globals seat.old) choices.now ≡ None)
        (λ b. along_first graph.now.setting.commands graph.now.edges seat.old.at
        (seen_from runner.old.globals seat.old) choices.now
        ≡ Some (seen_from runner.new.globals seat.new, b))) }
    ensures comes { IfOk result (λ to. MatchOption to Unit (λ b. seat.new.at ≡ b)) }
    ensures sized { OnOk result
        (AreSized graph.now.setting (seen_from runner.new.globals seat.new)) }
    ensures fits { OnOk result (TriesFit graph.now.setting.commands graph.now.edges seat.old.at
        (seen_from runner.old.globals seat.old) choices.now) }
    ensures past { IsErrOf result RunEnd.Past128
        → ¬ TriesFit graph.now.setting.commands graph.now.edges seat.old.at
        (seen_from runner.old.globals seat.old) choices.now }
{
    runner.exchange_locals(&mut seat.locals);
    let ended = go_along_first(runner, graph, leaving.from(seat.at), choices, havocs);
    runner.exchange_locals(&mut seat.locals);
    match ended {
        Ok(to) => {
            come_to(seat, to);
            Ok(to)
        }
        Err(end) => Err(end),
    }
}

// The thread is at the location, if there is one, and else where it is.
fn come_to(seat: &mut Seat, to: Option<u32>)
    ensures locals { seat.new.locals ≡ seat.old.locals }
    ensures at { MatchOption to (seat.new.at ≡ seat.old.at) (λ b. seat.new.at ≡ b) }
{
    match to {
        Some(location) => seat.at = location,
        None => {}
    }
}

// A thread with each of these lists of locals, at the location.
fn seats_at(
    alloc: Global,
    locals: Vec<Sequence<i128>>,
    location: u32,
) -> Result<Vec<Seat>, AllocError>
    ensures { IfOk result (λ seats. map seat_of seats.items ≡ seats_from location locals.items) }
{
    let mut seats = Vec::with_capacity(alloc, locals.len())?;
    for values in locals {
        seats
            .push(Seat {
                locals: values.into_list(),
                at: location,
            })
            .map_err(|_| AllocError)?;
    }
    Ok(seats)
}
