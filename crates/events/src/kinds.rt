// What the items of a wait are: events, each named by its kind.
ghost use Rattle.std.specs.Prelude.{◌≡◌};
ghost use Rattle.events.specs.Kind.{reads_of};
ghost use Rattle.events.specs.Event.{event_shape};

use crate::{Event, Kind};
use items::Items;
use text::{Reads, Values};

const KINDS: [Kind; 5] = [
    Kind::Register,
    Kind::End,
    Kind::Horizon,
    Kind::Reserve,
    Kind::Observe,
];

// The fields that an event reads: the fourth is the xmin, and with the clock goes the sample.
fn reads_of(kind: Kind) -> Reads
    ensures { result ≡ reads_of kind }
{
    match kind {
        Kind::Register => Reads {
            slot: true,
            id: true,
            ..Reads::NONE
        },
        Kind::End => Reads {
            slot: true,
            ..Reads::NONE
        },
        Kind::Horizon => Reads {
            slot: true,
            fourth: true,
            ..Reads::NONE
        },
        Kind::Reserve => Reads {
            id: true,
            ..Reads::NONE
        },
        Kind::Observe => Reads {
            clock: true,
            ..Reads::NONE
        },
    }
}

pub struct Events;

impl Items for Events {
    type Kind = Kind;

    type Item = Event;

    ghost shape = { event_shape };

    fn key() -> &'static [u8] {
        b"event="
    }

    fn fourth() -> &'static [u8] {
        b"xmin="
    }

    fn kinds() -> &'static [Kind] {
        &KINDS
    }

    fn name(kind: Kind) -> &'static [u8] {
        match kind {
            Kind::Register => b"register\n",
            Kind::End => b"end\n",
            Kind::Horizon => b"horizon\n",
            Kind::Reserve => b"reserve\n",
            Kind::Observe => b"observe\n",
        }
    }

    fn reads(kind: Kind) -> Reads {
        reads_of(kind)
    }

    fn item(kind: Kind, values: Values) -> Event {
        Event {
            kind,
            slot: values.slot,
            id: values.id,
            xmin: values.fourth,
            clock: values.clock,
            sample: values.sample,
        }
    }
}
