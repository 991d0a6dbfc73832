// How a refusal is reported: by its number, its layer and its place.
ghost use Rattle.std.specs.Prelude.{◌≡◌};
ghost use Rattle.site.specs.Reports.{number_of, layer_of, place_of, report_of};

use crate::refusal::{Fault, Layer, Place, Refusal, Report};

impl From<Refusal> for Report {
    ghost from_gives = { λ refusal report. report ≡ report_of refusal };

    fn from(refusal: Refusal) -> Report {
        Report {
            number: refusal.number(),
            layer: refusal.layer(),
            place: refusal.place(),
        }
    }
}

impl Refusal {
    fn number(self) -> u8
        ensures { result ≡ number_of self }
    {
        match self {
            Refusal::File { fault, .. } => fault.number(),
            Refusal::Chain { .. } => 9,
            Refusal::Goal { .. } => 10,
            Refusal::Reply { .. } => 11,
        }
    }

    fn layer(self) -> Layer
        ensures { result ≡ layer_of self }
    {
        match self {
            Refusal::File { fault, .. } => fault.layer(),
            _ => Layer::Ranking,
        }
    }

    fn place(self) -> Place
        ensures { result ≡ place_of self }
    {
        match self {
            Refusal::File { at, .. } => Place::Offset(at),
            Refusal::Chain { factor, a, b } | Refusal::Goal { factor, a, b } => Place::Facts {
                factor,
                a,
                b,
                label: 0,
            },
            Refusal::Reply {
                factor,
                a,
                b,
                label,
            } => Place::Facts {
                factor,
                a,
                b,
                label,
            },
        }
    }
}

impl Fault {
    fn number(self) -> u8
        ensures { result ≡ number_of (Refusal.File self 0) }
    {
        match self {
            Fault::TooLong => 1,
            Fault::UnknownLetter => 2,
            Fault::Truncated => 3,
            Fault::Trailing => 4,
            Fault::Misplaced => 5,
            Fault::OutOfRange | Fault::PairOutOfRange => 6,
            Fault::Repeated => 7,
            Fault::Unpriced => 8,
        }
    }

    fn layer(self) -> Layer
        ensures { result ≡ layer_of (Refusal.File self 0) }
    {
        match self {
            Fault::TooLong | Fault::UnknownLetter | Fault::Truncated | Fault::Trailing =>
                Layer::Reader,
            Fault::PairOutOfRange => Layer::Ranking,
            Fault::Misplaced | Fault::OutOfRange | Fault::Repeated | Fault::Unpriced => Layer::Site,
        }
    }
}
