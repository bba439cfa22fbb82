ghost use Rattle.std.specs.Prelude.{◌≡◌, ◌<◌, ◌≤◌, ◌+◌, ◌^◌, ℕ, None, Ok, Err, MatchResult, OnOk, IfOk, length};
ghost use Rattle.asc_base.specs.declared.block.Point.{Point as PointValue};
ghost use Rattle.asc_outside.specs.Memory.{MemoryState};
ghost use Rattle.bus_watch.specs.Log.{TapState};
ghost use Rattle.bus_watch.specs.Same.{IsSameBus};
ghost use Rattle.oram_contents.specs.Entries.{Keys};
ghost use Rattle.request_plan.specs.Plan.{Ends};
ghost use Rattle.oram_contents.specs.Fold.{tagged_entry};
ghost use Rattle.oram_stash.specs.Entries.{held};
ghost use Rattle.oram_walk.specs.Request.{Slot, Append, Answer, nothing};
ghost use Rattle.rate_enforcer.specs.PortStep.{PortStep, port_of};
ghost use Rattle.rate_enforcer.specs.Served.{keys_of};
ghost use Rattle.rate_enforcer.specs.State.{Rests, Opens};
ghost use Rattle.rate_enforcer.specs.declared.clock.Clock.{Clock as ClockValue};
ghost use Rattle.rate_enforcer.specs.declared.port.OpenSlot.{OpenSlot as SlotValue};
ghost use Rattle.unified_tree.specs.Tree.{TreeState, IsSameTree};
ghost use Rattle.oram_frontend.specs.Access.{accept_plan, back_plan, put_plan, SlotStep, FinishStep};

use crate::judge::{judge, line_of, message_found};
use asc_base::{Entry, Line, Message, Point, Stop};
use asc_outside::UntrustedMemory;
use bus_watch::{Bus, Event, Watch};
use leaf_function::LeafFn;
use oram_walk::{Access, Purpose, Seen};
use pmmac_tags::Tagger;
use rate_enforcer::{OpenSlot, Port};

/// One access, in the first slot that starts at or after the time asked: the block is taken out of those at hand and
/// judged, and where that is its purpose it is put back under its next counter.
///
/// `Integrity` where what was found is missing, unexpected or badly tagged: then the slot is given up after its reads.
/// The other stops are the port's.
pub(crate) fn access<M: UntrustedMemory, W: Watch, L: LeafFn>(
    bus: &mut Bus<'_, M, W>,
    port: &mut Port<L>,
    tagger: &Tagger,
    access: &Access,
) -> Result<Seen, Stop>
    requires rests { Rests 0 port.old.clock port.old.tree (L.levels port.old.leaves)
        (M.state bus.old.memory.now) (W.state bus.old.tap.now) }
    requires inside { access.now.address.0 < port.old.tree.shape.total }
    requires asked { port.old.clock.last ≤ access.now.asked }
    ensures comes { MatchResult result
        (λ seen. SlotStep (keys_of port.old.tree tagger.now (L.leaf_of port.old.leaves)) (L.levels port.old.leaves)
        (port_of port.old.clock port.old.tree (M.state bus.old.memory.now) (W.state bus.old.tap.now))
        (Slot access.now) (Ok seen)
        (port_of port.new.clock port.new.tree (M.state bus.new.memory.now) (W.state bus.new.tap.now)))
        (λ stop. SlotStep (keys_of port.old.tree tagger.now (L.leaf_of port.old.leaves)) (L.levels port.old.leaves)
        (port_of port.old.clock port.old.tree (M.state bus.old.memory.now) (W.state bus.old.tap.now))
        (Slot access.now) (Err stop)
        (port_of port.new.clock port.new.tree (M.state bus.new.memory.now) (W.state bus.new.tap.now))) }
    ensures same { IsSameBus bus.old bus.new }
    ensures leaves { port.new.leaves ≡ port.old.leaves }
    ensures kept { IsSameTree port.old.tree port.new.tree }
    ensures config { port.new.clock.config ≡ port.old.clock.config }
    ensures rests { OnOk result (Rests 1 port.new.clock port.new.tree (L.levels port.new.leaves)
        (M.state bus.new.memory.now) (W.state bus.new.tap.now)) }
    ensures spare { OnOk result (0 < port.new.tree.spare) }
    ensures last { IfOk result (λ seen. port.new.clock.last ≡ seen.end) }
{
    let point = Point::Real(access.address, access.counter);
    let slot = match port.open(bus, access.asked, point) {
        Ok(slot) => slot,
        Err(stop) => return Err(stop),
    };
    let found = port.take(&slot, access.address);
    if let Some(evidence) = judge(tagger, access, found) {
        port.abort(slot, Stop::Integrity(evidence));
        return Err(Stop::Integrity(evidence));
    }
    finish(bus, port, tagger, access, slot, found)
}

/// The rest of a slot in which nothing is wrong.
fn finish<M: UntrustedMemory, W: Watch, L: LeafFn>(
    bus: &mut Bus<'_, M, W>,
    port: &mut Port<L>,
    tagger: &Tagger,
    access: &Access,
    slot: OpenSlot,
    found: Option<Entry>,
) -> Result<Seen, Stop>
    requires opens { Opens 3 port.old.clock slot port.old.tree (L.levels port.old.leaves)
        (M.state bus.old.memory.now) (W.state bus.old.tap.now) }
    requires inside { access.now.address.0 < port.old.tree.shape.total }
    requires absent { held port.old.tree.hand access.now.address ≡ None }
    requires spare { 2 ≤ port.old.tree.spare }
    requires few { length port.old.tree.hand < 2 ^ 20 }
    ensures comes { MatchResult result
        (λ seen. FinishStep (keys_of port.old.tree tagger.now (L.leaf_of port.old.leaves)) (L.levels port.old.leaves)
        access.now found (port_of port.old.clock port.old.tree (M.state bus.old.memory.now) (W.state bus.old.tap.now))
        (Ok seen)
        (port_of port.new.clock port.new.tree (M.state bus.new.memory.now) (W.state bus.new.tap.now)))
        (λ stop. FinishStep (keys_of port.old.tree tagger.now (L.leaf_of port.old.leaves)) (L.levels port.old.leaves)
        access.now found (port_of port.old.clock port.old.tree (M.state bus.old.memory.now) (W.state bus.old.tap.now))
        (Err stop)
        (port_of port.new.clock port.new.tree (M.state bus.new.memory.now) (W.state bus.new.tap.now))) }
    ensures same { IsSameBus bus.old bus.new }
    ensures leaves { port.new.leaves ≡ port.old.leaves }
    ensures kept { IsSameTree port.old.tree port.new.tree }
    ensures config { port.new.clock.config ≡ port.old.clock.config }
    ensures rests { OnOk result (Rests 1 port.new.clock port.new.tree (L.levels port.new.leaves)
        (M.state bus.new.memory.now) (W.state bus.new.tap.now)) }
    ensures spare { OnOk result (0 < port.new.tree.spare) }
    ensures last { IfOk result (λ seen. port.new.clock.last ≡ seen.end) }
{
    let line = line_of(found);
    accept(bus, access, found);
    put_back(bus, port, tagger, access, &slot, line);
    match port.close(bus, slot) {
        Ok(end) => Ok(Seen { line, end }),
        Err(stop) => Err(stop),
    }
}

/// Notes what was found as accepted.
fn accept<M: UntrustedMemory, W: Watch>(
    bus: &mut Bus<'_, M, W>,
    access: &Access,
    found: Option<Entry>,
)
    requires room { 0 < (W.state bus.old.tap.now).spare_events }
    ensures plan { (leaf_of : PointValue → ℕ) (levels : ℕ) (clock : ClockValue) (tree : TreeState)
        → Ends (PortStep leaf_of levels) (accept_plan access.now found)
        (port_of clock tree (M.state bus.old.memory.now) (W.state bus.old.tap.now))
        (port_of clock tree (M.state bus.new.memory.now) (W.state bus.new.tap.now)) tt }
    ensures same { IsSameBus bus.old bus.new }
    ensures opens { (notes levels : ℕ) (clock : ClockValue) (slot : SlotValue) (tree : TreeState)
        → Opens (notes + 1) clock slot tree levels (M.state bus.old.memory.now) (W.state bus.old.tap.now)
        → Opens notes clock slot tree levels (M.state bus.new.memory.now) (W.state bus.new.tap.now) }
{
    if let Some(entry) = found {
        let message = message_found(access, entry.line);
        let tag = entry.tag;
        bus.note(Event::Accepted { message, tag });
    }
}

/// Puts a block back, where that is the access's purpose.
fn put_back<M: UntrustedMemory, W: Watch, L: LeafFn>(
    bus: &mut Bus<'_, M, W>,
    port: &mut Port<L>,
    tagger: &Tagger,
    access: &Access,
    slot: &OpenSlot,
    line: Line,
)
    requires opens { Opens 2 port.old.clock slot.now port.old.tree (L.levels port.old.leaves)
        (M.state bus.old.memory.now) (W.state bus.old.tap.now) }
    requires inside { access.now.address.0 < port.old.tree.shape.total }
    requires absent { held port.old.tree.hand access.now.address ≡ None }
    requires spare { 2 ≤ port.old.tree.spare }
    requires few { length port.old.tree.hand < 2 ^ 20 }
    ensures plan { Ends (PortStep (L.leaf_of port.old.leaves) (L.levels port.old.leaves))
        (back_plan (keys_of port.old.tree tagger.now (L.leaf_of port.old.leaves)) access.now line access.now.purpose)
        (port_of port.old.clock port.old.tree (M.state bus.old.memory.now) (W.state bus.old.tap.now))
        (port_of port.new.clock port.new.tree (M.state bus.new.memory.now) (W.state bus.new.tap.now)) tt }
    ensures same { IsSameBus bus.old bus.new }
    ensures leaves { port.new.leaves ≡ port.old.leaves }
    ensures kept { IsSameTree port.old.tree port.new.tree }
    ensures config { port.new.clock.config ≡ port.old.clock.config }
    ensures opens { Opens 1 port.new.clock slot.now port.new.tree (L.levels port.new.leaves)
        (M.state bus.new.memory.now) (W.state bus.new.tap.now) }
    ensures spare { 0 < port.new.tree.spare }
{
    let line = match access.purpose {
        Purpose::Refill => return,
        Purpose::Keep => line,
        Purpose::Replace(value) => value,
    };
    let message = Message {
        address: access.address,
        counter: access.next,
        line,
    };
    put(bus, port, tagger, slot, &message);
}

/// Notes a message as tagged, and puts its entry at hand.
fn put<M: UntrustedMemory, W: Watch, L: LeafFn>(
    bus: &mut Bus<'_, M, W>,
    port: &mut Port<L>,
    tagger: &Tagger,
    slot: &OpenSlot,
    message: &Message,
)
    requires opens { Opens 2 port.old.clock slot.now port.old.tree (L.levels port.old.leaves)
        (M.state bus.old.memory.now) (W.state bus.old.tap.now) }
    requires inside { message.now.address.0 < port.old.tree.shape.total }
    requires absent { held port.old.tree.hand message.now.address ≡ None }
    requires spare { 2 ≤ port.old.tree.spare }
    requires few { length port.old.tree.hand < 2 ^ 20 }
    ensures plan { Ends (PortStep (L.leaf_of port.old.leaves) (L.levels port.old.leaves))
        (put_plan (keys_of port.old.tree tagger.now (L.leaf_of port.old.leaves)) message.now)
        (port_of port.old.clock port.old.tree (M.state bus.old.memory.now) (W.state bus.old.tap.now))
        (port_of port.new.clock port.new.tree (M.state bus.new.memory.now) (W.state bus.new.tap.now)) tt }
    ensures same { IsSameBus bus.old bus.new }
    ensures leaves { port.new.leaves ≡ port.old.leaves }
    ensures kept { IsSameTree port.old.tree port.new.tree }
    ensures config { port.new.clock.config ≡ port.old.clock.config }
    ensures opens { Opens 1 port.new.clock slot.now port.new.tree (L.levels port.new.leaves)
        (M.state bus.new.memory.now) (W.state bus.new.tap.now) }
    ensures spare { 0 < port.new.tree.spare }
{
    let entry = entry_for(port, tagger, message);
    bus.note(Event::Tagged { message: *message });
    port.put(slot, entry);
}

/// The entry of a message.
fn entry_for<L: LeafFn>(port: &Port<L>, tagger: &Tagger, message: &Message) -> Entry
    ensures entry { (keys : Keys) → keys.tags ≡ tagger.now → keys.leaf_of ≡ L.leaf_of port.now.leaves
        → result ≡ tagged_entry keys message.now }
    ensures address { result.address ≡ message.now.address }
    ensures leaf { result.leaf.0 < 2 ^ L.levels port.now.leaves }
{
    Entry {
        address: message.address,
        leaf: port.leaf(Point::Real(message.address, message.counter)),
        line: message.line,
        tag: tagger.tag(message),
    }
}

/// Notes a displaced block as tagged, and joins it to those at hand.
///
/// `Integrity` and `StashFull` are the port's.
pub(crate) fn append<M: UntrustedMemory, W: Watch, L: LeafFn>(
    bus: &mut Bus<'_, M, W>,
    port: &mut Port<L>,
    tagger: &Tagger,
    message: &Message,
) -> Result<(), Stop>
    requires rests { Rests 1 port.old.clock port.old.tree (L.levels port.old.leaves)
        (M.state bus.old.memory.now) (W.state bus.old.tap.now) }
    requires spare { 0 < port.old.tree.spare }
    requires inside { message.now.address.0 < port.old.tree.shape.total }
    ensures comes { MatchResult result
        (λ _. SlotStep (keys_of port.old.tree tagger.now (L.leaf_of port.old.leaves)) (L.levels port.old.leaves)
        (port_of port.old.clock port.old.tree (M.state bus.old.memory.now) (W.state bus.old.tap.now))
        (Append message.now) (Ok nothing)
        (port_of port.new.clock port.new.tree (M.state bus.new.memory.now) (W.state bus.new.tap.now)))
        (λ stop. SlotStep (keys_of port.old.tree tagger.now (L.leaf_of port.old.leaves)) (L.levels port.old.leaves)
        (port_of port.old.clock port.old.tree (M.state bus.old.memory.now) (W.state bus.old.tap.now))
        (Append message.now) (Err stop)
        (port_of port.new.clock port.new.tree (M.state bus.new.memory.now) (W.state bus.new.tap.now))) }
    ensures same { IsSameBus bus.old bus.new }
    ensures leaves { port.new.leaves ≡ port.old.leaves }
    ensures kept { IsSameTree port.old.tree port.new.tree }
    ensures config { port.new.clock.config ≡ port.old.clock.config }
    ensures rests { OnOk result (Rests 0 port.new.clock port.new.tree (L.levels port.new.leaves)
        (M.state bus.new.memory.now) (W.state bus.new.tap.now)) }
    ensures last { OnOk result (port.new.clock.last ≡ port.old.clock.last) }
{
    let entry = entry_for(port, tagger, message);
    bus.note(Event::Tagged { message: *message });
    port.append(entry)
}

/// Notes a line as answered.
pub(crate) fn answer<M: UntrustedMemory, W: Watch>(bus: &mut Bus<'_, M, W>, line: u32, value: &Line)
    requires room { 0 < (W.state bus.old.tap.now).spare_events }
    ensures comes { (keys : Keys) (levels : ℕ) (clock : ClockValue) (tree : TreeState)
        → SlotStep keys levels (port_of clock tree (M.state bus.old.memory.now) (W.state bus.old.tap.now))
        (Answer line value.now) (Ok nothing)
        (port_of clock tree (M.state bus.new.memory.now) (W.state bus.new.tap.now)) }
    ensures same { IsSameBus bus.old bus.new }
    ensures rests { (notes levels : ℕ) (clock : ClockValue) (tree : TreeState)
        → Rests (notes + 1) clock tree levels (M.state bus.old.memory.now) (W.state bus.old.tap.now)
        → Rests notes clock tree levels (M.state bus.new.memory.now) (W.state bus.new.tap.now) }
{
    bus.note(Event::Answered {
        line,
        value: *value,
    });
}
