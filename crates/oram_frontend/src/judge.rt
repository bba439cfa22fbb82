ghost use Rattle.std.specs.Prelude.{◌≡◌};
ghost use Rattle.oram_contents.specs.Entries.{Keys};
ghost use Rattle.oram_contents.specs.Verdict.{judged};
ghost use Rattle.oram_frontend.specs.Access.{found_line, found_message};

use asc_base::{Entry, Evidence, Line, Message};
use oram_walk::Access;
use pmmac_tags::Tagger;

/// The line of what was found, zeros where nothing was.
pub(crate) fn line_of(found: Option<Entry>) -> Line
    ensures { result ≡ found_line found }
{
    match found {
        Some(entry) => entry.line,
        None => Line([0; 64]),
    }
}

/// The message of what was found: under the counter that was asked for.
pub(crate) fn message_found(access: &Access, line: Line) -> Message
    ensures { result ≡ found_message access.now line }
{
    Message {
        address: access.address,
        counter: access.counter,
        line,
    }
}

/// What is wrong with what was found for a block under its counter. `Missing` where nothing was found of a block that
/// was accessed before; `Unexpected` where something was found of one that never was; `BadTag` where its tag isn't that
/// of its message.
pub(crate) fn judge(tagger: &Tagger, access: &Access, found: Option<Entry>) -> Option<Evidence>
    ensures { (keys : Keys) → keys.tags ≡ tagger.now
        → result ≡ judged keys access.now.address.0 access.now.counter found }
{
    let first = access.counter.group == 0 && access.counter.own == 0;
    match found {
        None => {
            if first {
                None
            } else {
                Some(Evidence::Missing {
                    address: access.address,
                    counter: access.counter,
                })
            }
        }
        Some(entry) => {
            if first {
                return Some(Evidence::Unexpected {
                    address: access.address,
                });
            }
            let message = message_found(access, entry.line);
            let computed = tagger.tag(&message);
            if entry.tag == computed {
                None
            } else {
                Some(Evidence::BadTag {
                    message,
                    found: entry.tag,
                    computed,
                })
            }
        }
    }
}
