//! The walk to a line: what is accessed and appended on its way, and its own access.

ghost use Rattle.std.specs.Prelude.{◌≡◌, ◌+◌, ◌<◌, ◌≤◌, IfOk, IfErr, IsNone, OnOk, Some};
ghost use Rattle.request_plan.specs.Plan.{Ends, Stops};
ghost use Rattle.asc_base.specs.Shape.{IsAddress, parent_in, children_in};
ghost use Rattle.posmap_lookaside.specs.Held.{held_at, addresses_of};
ghost use Rattle.posmap_lookaside.specs.Walk.{held_after};
ghost use Rattle.oram_walk.specs.Front.{IsFront, sizes_of};
ghost use Rattle.oram_walk.specs.Plans.{child_plan, family_plan, move_plan, group_plan, step_plan, visit_plan};
ghost use Rattle.oram_walk.specs.Plans.{message_of, hold_plan, refill_plan, walk_plan, request_plan, fetch_plan};
ghost use Rattle.oram_walk.specs.Plans.{store_plan};
ghost use Rattle.oram_walk.specs.Request.{Steps};

use crate::front::Front;
use crate::slots::{Access, Purpose, Seen, Slots};
use asc_base::{Address, Counter, Line, Message, Stop};
use posmap_counters::Group;
use posmap_lookaside::Held;

impl Front {
    /// The line of this number, which the slots are told as answered, and when its slot ended.
    ///
    /// Err is a stop of the slots, or want of memory where a block comes to be held. What is left then is what the plan
    /// leaves at that request.
    pub fn fetch<S: Slots>(&mut self, slots: &mut S, asked: u64, line: u32) -> Result<Seen, Stop>
        requires line { line < self.old.shape.lines }
        requires total { S.total slots.old ≡ self.old.shape.total }
        requires rests { S.rests slots.old }
        requires asked { S.last slots.old ≤ asked }
        ensures ok { IfOk result (λ seen.
            Ends (Steps S.step) (fetch_plan self.old asked line) slots.old slots.new (self.new, seen)) }
        ensures err { IfErr result (λ stop.
            Stops (Steps S.step) (fetch_plan self.old asked line) slots.old slots.new stop self.new) }
        ensures held { OnOk result (addresses_of self.new.held
            ≡ held_after (sizes_of self.old) (addresses_of self.old.held) line) }
        ensures rests { OnOk result (S.rests slots.new) }
        ensures last { IfOk result (λ seen. S.last slots.new ≡ seen.end) }
        ensures total { S.total slots.new ≡ S.total slots.old }
        ensures shape { self.new.shape ≡ self.old.shape }
        ensures whole { IsFront self.new }
    {
        let seen = self.request(slots, asked, line, Purpose::Keep)?;
        slots.answered(line, &seen.line);
        Ok(seen)
    }

    /// Puts a line in the place of the line of this number, and answers when its slot ended.
    ///
    /// Err is a stop of the slots, or want of memory where a block comes to be held. What is left then is what the plan
    /// leaves at that request.
    pub fn store<S: Slots>(
        &mut self,
        slots: &mut S,
        asked: u64,
        line: u32,
        value: &Line,
    ) -> Result<u64, Stop>
        requires line { line < self.old.shape.lines }
        requires total { S.total slots.old ≡ self.old.shape.total }
        requires rests { S.rests slots.old }
        requires asked { S.last slots.old ≤ asked }
        ensures ok { IfOk result (λ end.
            Ends (Steps S.step) (store_plan self.old asked line value.now) slots.old slots.new (self.new, end)) }
        ensures err { IfErr result (λ stop.
            Stops (Steps S.step) (store_plan self.old asked line value.now) slots.old slots.new stop self.new) }
        ensures held { OnOk result (addresses_of self.new.held
            ≡ held_after (sizes_of self.old) (addresses_of self.old.held) line) }
        ensures rests { OnOk result (S.rests slots.new) }
        ensures last { IfOk result (λ end. S.last slots.new ≡ end) }
        ensures total { S.total slots.new ≡ S.total slots.old }
        ensures shape { self.new.shape ≡ self.old.shape }
        ensures whole { IsFront self.new }
    {
        let seen = self.request(slots, asked, line, Purpose::Replace(*value))?;
        Ok(seen.end)
    }

    /// The walk to a line, and its access.
    fn request<S: Slots>(
        &mut self,
        slots: &mut S,
        asked: u64,
        line: u32,
        purpose: Purpose,
    ) -> Result<Seen, Stop>
        requires line { line < self.old.shape.lines }
        requires total { S.total slots.old ≡ self.old.shape.total }
        requires rests { S.rests slots.old }
        requires asked { S.last slots.old ≤ asked }
        ensures ok { IfOk result (λ seen.
            Ends (Steps S.step) (request_plan self.old asked (record { 0 = line }) purpose)
            slots.old slots.new (self.new, seen)) }
        ensures err { IfErr result (λ stop.
            Stops (Steps S.step) (request_plan self.old asked (record { 0 = line }) purpose)
            slots.old slots.new stop self.new) }
        ensures held { OnOk result (addresses_of self.new.held
            ≡ held_after (sizes_of self.old) (addresses_of self.old.held) line) }
        ensures ended { OnOk result (S.ended slots.new) }
        ensures last { IfOk result (λ seen. S.last slots.new ≡ seen.end) }
        ensures total { S.total slots.new ≡ S.total slots.old }
        ensures shape { self.new.shape ≡ self.old.shape }
        ensures whole { IsFront self.new }
    {
        let layers = self.layers();
        let end = self.walk(slots, asked, Address(line), layers)?;
        self.visit(slots, end, Address(line), purpose)
    }

    /// The walk to a block that has at most so many ancestors.
    fn walk<S: Slots>(
        &mut self,
        slots: &mut S,
        asked: u64,
        address: Address,
        above: u32,
    ) -> Result<u64, Stop>
        requires address { IsAddress self.old.shape address }
        requires total { S.total slots.old ≡ self.old.shape.total }
        requires rests { S.rests slots.old }
        requires asked { S.last slots.old ≤ asked }
        ensures ok { IfOk result (λ end.
            Ends (Steps S.step) (walk_plan above self.old asked address) slots.old slots.new (self.new, end)) }
        ensures err { IfErr result (λ stop.
            Stops (Steps S.step) (walk_plan above self.old asked address) slots.old slots.new stop self.new) }
        ensures rests { OnOk result (S.rests slots.new) }
        ensures last { IfOk result (λ end. S.last slots.new ≤ end) }
        ensures total { S.total slots.new ≡ S.total slots.old }
        ensures shape { self.new.shape ≡ self.old.shape }
        ensures whole { IsFront self.new }
    {
        let Some(parent) = self.parent(address) else {
            return Ok(asked);
        };
        if above == 0 || self.find(parent) {
            return Ok(asked);
        }
        let end = self.walk(slots, asked, parent, above - 1)?;
        self.refill(slots, end, parent)
    }

    /// A block that isn't held is accessed, and then held.
    fn refill<S: Slots>(&mut self, slots: &mut S, asked: u64, address: Address) -> Result<u64, Stop>
        requires address { IsAddress self.old.shape address }
        requires fresh { IsNone (held_at self.old.held address) }
        requires total { S.total slots.old ≡ self.old.shape.total }
        requires rests { S.rests slots.old }
        requires asked { S.last slots.old ≤ asked }
        ensures ok { IfOk result (λ end.
            Ends (Steps S.step) (refill_plan self.old asked address) slots.old slots.new (self.new, end)) }
        ensures err { IfErr result (λ stop.
            Stops (Steps S.step) (refill_plan self.old asked address) slots.old slots.new stop self.new) }
        ensures rests { OnOk result (S.rests slots.new) }
        ensures last { IfOk result (λ end. S.last slots.new ≤ end) }
        ensures total { S.total slots.new ≡ S.total slots.old }
        ensures shape { self.new.shape ≡ self.old.shape }
        ensures whole { IsFront self.new }
    {
        let seen = self.visit(slots, asked, address, Purpose::Refill)?;
        let held = Held {
            address,
            counter: self.counter(address),
            group: Group::read(&seen.line),
        };
        self.hold(slots, held)?;
        Ok(seen.end)
    }

    /// Holds a block that isn't held, and appends the one that it displaces.
    fn hold<S: Slots>(&mut self, slots: &mut S, held: Held) -> Result<(), Stop>
        requires fresh { IsNone (held_at self.old.held held.address) }
        requires inside { IsAddress self.old.shape held.address }
        requires total { S.total slots.old ≡ self.old.shape.total }
        requires ended { S.ended slots.old }
        ensures ok { IfOk result (λ done.
            Ends (Steps S.step) (hold_plan self.old held) slots.old slots.new (self.new, done)) }
        ensures err { IfErr result (λ stop.
            Stops (Steps S.step) (hold_plan self.old held) slots.old slots.new stop self.new) }
        ensures rests { OnOk result (S.rests slots.new) }
        ensures last { OnOk result (S.last slots.new ≡ S.last slots.old) }
        ensures total { S.total slots.new ≡ S.total slots.old }
        ensures shape { self.new.shape ≡ self.old.shape }
        ensures whole { IsFront self.new }
    {
        match self.insert(held) {
            Ok(None) => Ok(()),
            Ok(Some(last)) => slots.append(&message(&last)),
            Err(_) => Err(Stop::NoMemory),
        }
    }

    /// An access that is asked for, after the group move that it may need.
    fn visit<S: Slots>(
        &mut self,
        slots: &mut S,
        asked: u64,
        address: Address,
        purpose: Purpose,
    ) -> Result<Seen, Stop>
        requires address { IsAddress self.old.shape address }
        requires total { S.total slots.old ≡ self.old.shape.total }
        requires rests { S.rests slots.old }
        requires asked { S.last slots.old ≤ asked }
        ensures ok { IfOk result (λ seen.
            Ends (Steps S.step) (visit_plan self.old asked address purpose) slots.old slots.new (self.new, seen)) }
        ensures err { IfErr result (λ stop.
            Stops (Steps S.step) (visit_plan self.old asked address purpose) slots.old slots.new stop self.new) }
        ensures ended { OnOk result (S.ended slots.new) }
        ensures last { IfOk result (λ seen. S.last slots.new ≡ seen.end) }
        ensures total { S.total slots.new ≡ S.total slots.old }
        ensures shape { self.new.shape ≡ self.old.shape }
        ensures whole { IsFront self.new }
    {
        let end = self.make_room(slots, asked, address)?;
        self.access(slots, end, address, purpose)
    }

    /// Steps the parent of a block, and accesses the block.
    fn access<S: Slots>(
        &mut self,
        slots: &mut S,
        asked: u64,
        address: Address,
        purpose: Purpose,
    ) -> Result<Seen, Stop>
        requires address { IsAddress self.old.shape address }
        requires total { S.total slots.old ≡ self.old.shape.total }
        requires rests { S.rests slots.old }
        requires asked { S.last slots.old ≤ asked }
        ensures ok { IfOk result (λ seen.
            Ends (Steps S.step) (step_plan self.old asked address purpose) slots.old slots.new (self.new, seen)) }
        ensures err { IfErr result (λ stop.
            Stops (Steps S.step) (step_plan self.old asked address purpose) slots.old slots.new stop self.new) }
        ensures ended { OnOk result (S.ended slots.new) }
        ensures last { IfOk result (λ seen. S.last slots.new ≡ seen.end) }
        ensures total { S.total slots.new ≡ S.total slots.old }
        ensures shape { self.new.shape ≡ self.old.shape }
        ensures whole { IsFront self.new }
    {
        let counter = self.counter(address);
        self.step(address);
        let next = self.counter(address);
        slots.access(&Access {
            asked,
            address,
            counter,
            next,
            purpose,
        })
    }

    /// The group move that has to come before an access to a block, where one has to.
    fn make_room<S: Slots>(
        &mut self,
        slots: &mut S,
        asked: u64,
        address: Address,
    ) -> Result<u64, Stop>
        requires address { IsAddress self.old.shape address }
        requires total { S.total slots.old ≡ self.old.shape.total }
        requires rests { S.rests slots.old }
        requires asked { S.last slots.old ≤ asked }
        ensures ok { IfOk result (λ end.
            Ends (Steps S.step) (group_plan self.old asked address) slots.old slots.new (self.new, end)) }
        ensures err { IfErr result (λ stop.
            Stops (Steps S.step) (group_plan self.old asked address) slots.old slots.new stop self.new) }
        ensures rests { OnOk result (S.rests slots.new) }
        ensures last { IfOk result (λ end. S.last slots.new ≤ end) }
        ensures total { S.total slots.new ≡ S.total slots.old }
        ensures shape { self.new.shape ≡ self.old.shape }
        ensures whole { IsFront self.new }
    {
        match self.full_parent(address) {
            Some((parent, group)) => self.move_group(slots, asked, parent, &group),
            None => Ok(asked),
        }
    }

    /// Moves all children of a held block to the next group counter, and then its group.
    fn move_group<S: Slots>(
        &mut self,
        slots: &mut S,
        asked: u64,
        parent: Address,
        group: &Group,
    ) -> Result<u64, Stop>
        requires parent { IsAddress self.old.shape parent }
        requires total { S.total slots.old ≡ self.old.shape.total }
        requires rests { S.rests slots.old }
        requires asked { S.last slots.old ≤ asked }
        ensures ok { IfOk result (λ end.
            Ends (Steps S.step) (move_plan self.old asked parent group.now) slots.old slots.new (self.new, end)) }
        ensures err { IfErr result (λ stop.
            Stops (Steps S.step) (move_plan self.old asked parent group.now) slots.old slots.new stop self.new) }
        ensures rests { OnOk result (S.rests slots.new) }
        ensures last { IfOk result (λ end. S.last slots.new ≤ end) }
        ensures total { S.total slots.new ≡ S.total slots.old }
        ensures shape { self.new.shape ≡ self.old.shape }
        ensures whole { IsFront self.new }
    {
        let end = self.move_children(slots, asked, parent, group)?;
        self.regroup(parent, group.moved());
        Ok(end)
    }

    /// Moves all children of a block to the next group counter.
    fn move_children<S: Slots>(
        &mut self,
        slots: &mut S,
        asked: u64,
        parent: Address,
        group: &Group,
    ) -> Result<u64, Stop>
        requires parent { IsAddress self.old.shape parent }
        requires total { S.total slots.old ≡ self.old.shape.total }
        requires rests { S.rests slots.old }
        requires asked { S.last slots.old ≤ asked }
        ensures ok { IfOk result (λ end.
            Ends (Steps S.step) (family_plan group.now (children_in self.old.shape parent) self.old asked)
            slots.old slots.new (self.new, end)) }
        ensures err { IfErr result (λ stop.
            Stops (Steps S.step) (family_plan group.now (children_in self.old.shape parent) self.old asked)
            slots.old slots.new stop self.new) }
        ensures rests { OnOk result (S.rests slots.new) }
        ensures last { IfOk result (λ end. S.last slots.new ≤ end) }
        ensures total { S.total slots.new ≡ S.total slots.old }
        ensures shape { self.new.shape ≡ self.old.shape }
        ensures whole { IsFront self.new }
    {
        let Some((first, number)) = self.family(parent) else {
            return Ok(asked);
        };
        let next = group.moved().counter(0);
        let mut end = asked;
        for child in 0..number {
            let address = Address(first.0 + child);
            end = self.move_child(slots, end, address, group.counter(child), next)?;
        }
        Ok(end)
    }

    /// Moves one child to the next group counter: one that is held is renumbered, and any other is accessed.
    fn move_child<S: Slots>(
        &mut self,
        slots: &mut S,
        asked: u64,
        address: Address,
        counter: Counter,
        next: Counter,
    ) -> Result<u64, Stop>
        requires address { IsAddress self.old.shape address }
        requires total { S.total slots.old ≡ self.old.shape.total }
        requires rests { S.rests slots.old }
        requires asked { S.last slots.old ≤ asked }
        ensures ok { IfOk result (λ end.
            Ends (Steps S.step) (child_plan self.old asked address counter next) slots.old slots.new (self.new, end)) }
        ensures err { IfErr result (λ stop.
            Stops (Steps S.step) (child_plan self.old asked address counter next) slots.old slots.new stop self.new) }
        ensures rests { OnOk result (S.rests slots.new) }
        ensures last { IfOk result (λ end. S.last slots.new ≤ end) }
        ensures total { S.total slots.new ≡ S.total slots.old }
        ensures shape { self.new.shape ≡ self.old.shape }
        ensures whole { IsFront self.new }
    {
        if self.renumber(address, next) {
            return Ok(asked);
        }
        let seen = slots.access(&Access {
            asked,
            address,
            counter,
            next,
            purpose: Purpose::Keep,
        })?;
        Ok(seen.end)
    }
}

/// The message of a displaced block.
fn message(held: &Held) -> Message
    ensures { result ≡ message_of held.now }
{
    Message {
        address: held.address,
        counter: held.counter,
        line: held.group.write(),
    }
}
