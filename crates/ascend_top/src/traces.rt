//! The text of a run's trace.

ghost use Rattle.std.specs.Prelude.{◌<◌, ◌+◌, IfOk};
ghost use Rattle.asc_base.specs.Settings.{IsConfig};
ghost use Rattle.asc_base.specs.TreeShape.{olat_of};
ghost use Rattle.bus_schedule.specs.Scheduled.{IsScheduled};
ghost use Rattle.bus_schedule.specs.Timetable.{public_of};
ghost use Rattle.bus_trace.specs.Grammar.{TraceText};
ghost use Rattle.bus_trace.specs.OfLog.{trace_of};
ghost use Rattle.bus_watch.specs.Recorder.{lists_of};
ghost use Rattle.secure_machine.specs.Run.{DrawsLeaves};

use asc_base::{Config, NoMemory};
use bus_trace::{Header, print};
use bus_watch::Log;
use std::alloc::Global;

/// The text of the trace of a log that keeps the pace of a configuration up to an end.
pub(crate) fn text_of(
    alloc: Global,
    config: &Config,
    log: &Log,
    end: u64,
) -> Result<Vec<u8>, NoMemory>
    requires config { IsConfig config.now }
    requires scheduled { IsScheduled (public_of config.now) end (lists_of log.now) }
    requires in_time { end < config.now.time + olat_of config.now.shape.levels }
    requires leaves { DrawsLeaves config.now (lists_of log.now) }
    ensures { IfOk result (λ text. TraceText text.items (trace_of (public_of config.now) (lists_of log.now) end)) }
{
    let header = Header {
        levels: config.shape.levels,
        rates: config.rates,
        first: config.first,
        epoch: config.epoch,
        leak: config.leak,
    };
    let mut text = Vec::new(alloc);
    match print(&header, log, end, &mut text) {
        Ok(()) => Ok(text),
        Err(NoMemory) => Err(NoMemory),
    }
}
