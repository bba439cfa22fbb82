//! Plans of requests, and what holds of code whose calls follow one.
//!
//! Code that asks another value, as a core asks a memory and a cache asks a store of lines, says in
//! its contract what it asks as a *plan*: a tree over the answers. A plan is an outcome; or it is a
//! request, what is left where that request is stopped, and how the plan goes on from each answer.
//! The contract then says that the call *ends* the plan, or *stops* it, by steps of the value that
//! it asks. The types of requests, answers, stops, outcomes and of what is left are parameters
//! everywhere. The crate has no code that does anything but its worked example.
//!
//! - `specs/Plan.antt` has plans, `Ends` and `Stops`, and how plans compose: one after another
//!   (`bind`), through a layer whose requests are plans of the layer below (`through`), and through
//!   a layer that may refuse a request (`caught`). Plans that are `Alike` ask the same.
//! - `specs/Play.antt` has a plan served by a server that answers everything (`served`), the
//!   records that a server makes of it (`play`), and these cut by a stop (`IsHalt`, `halt`).
//! - `specs/Course.antt` has a plan run on the answers that a value noted (`course`).
//! - `specs/Laws.antt` says what single steps have to do for a law of whole chains.
//! - `specs/Press.antt` and [`press`] are the worked example, which meets every law: a press that
//!   jams for good, and a folder and a desk over it.
//!
//! The functions below state the main laws, for every type whose calls are steps. Each takes an
//! invariant `Holds` that answers keep, as 'not stopped', so that a value may answer its stop for
//! good: the law then asks only of steps from where it holds. Crates above cite the lemmas of
//! `proofs/` directly. There are more of them: what each step keeps, a chain keeps; plans that are
//! alike have the same chains; how plans are served and played.
#![tactic(auto)]

mod laws;
pub mod press;

ghost use Rattle.std.specs.Prelude.{List, Result};
ghost use Rattle.request_plan.specs.Plan.{Plan};

pub use laws::{
    carried_along, desk_meets_the_laws, invariant_kept, noted_is_run, one_after_another,
    one_run_after_another, outcomes_and_requests, play_or_cut, press_meets_the_laws,
    through_a_layer, through_a_refusing_layer, told_is_served,
};
pub use press::{Desk, Folder, Halted, Press};

/// A value that is asked, and answers or is stopped.
pub trait Stepped {
    /// What is asked of it.
    type Request;

    /// What it answers.
    type Answer;

    /// What a stop says.
    type Stop;

    /// The value before, the request, the answer or the stop, and the value after.
    ghost step: { Self → Self.Request → Result Self.Answer Self.Stop → Self → Type 0 };
}

/// A value with something that its answers keep, as that it isn't stopped. A stop may break it.
pub trait Kept: Stepped {
    /// It holds.
    ghost holds: { Self → Type 0 };
}

/// A value of which it can be said that nothing dishonest came into it.
pub trait Guarded: Kept {
    /// Nothing dishonest came into it, from its start on.
    ghost clean: { Self → Type 0 };
}

/// A value that does what a server that keeps records does, and notes items of each record.
pub trait Follows: Guarded {
    /// What the server holds.
    type Held;

    /// A record of the server.
    type Record;

    /// What the value notes.
    type Item;

    /// What the value stands for of what the server holds.
    ghost stands_for: { Self → Self.Held → Type 0 };

    /// The stop cuts one of the server's records.
    ghost cuts: { Self.Stop → Type 0 };

    /// After a stop that cuts a record, these are the items that were noted of it.
    ghost part: { Self.Stop → Self → Self.Record → List Self.Item → Type 0 };

    /// The stop comes after all that the server still does.
    ghost late: { Self.Stop → Type 0 };

    /// The server makes no record any more.
    ghost quiet: { Self.Held → Type 0 };
}

/// A value of which something is known beside the plan that is left, `A` and `B` being the plan's outcomes and what
/// it leaves.
pub trait Knows<A, B>: Stepped {
    /// It is known.
    ghost known: { Self → Plan Self.Request Self.Answer B A → Type 0 };

    /// After a stop it is known of the value, of the stop, and of what is left.
    ghost known_left: { Self → Self.Stop → B → Type 0 };
}

/// A type some of whose values have a property.
pub trait Says {
    /// The value has it.
    ghost says: { Self → Type 0 };
}
