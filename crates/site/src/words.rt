// How a refusal is written.
ghost use Rattle.std.specs.Prelude.{◌≡◌, Some};
ghost use Rattle.site.specs.Words.{layer_text, place_text, report_text};

use crate::refusal::{Layer, Place, Report};
use std::fmt;

impl Layer {
    // The word for the layer.
    pub fn word(self) -> &'static str
        ensures { result.now ≡ layer_text self }
    {
        match self {
            Layer::Reader => "reader",
            Layer::Site => "site",
            Layer::Ranking => "ranking",
        }
    }
}

impl fmt::Display for Layer {
    ghost output = { λ l. Some (layer_text l) };

    fn fmt<W: fmt::Write>(&self, f: &mut fmt::Formatter<W>) -> fmt::Result {
        f.write_str(self.word())
    }
}

impl fmt::Display for Place {
    ghost output = { λ p. Some (place_text p) };

    fn fmt<W: fmt::Write>(&self, f: &mut fmt::Formatter<W>) -> fmt::Result {
        match self {
            Place::Offset(at) => write!(f, "{at}"),
            Place::Facts {
                factor,
                a,
                b,
                label,
            } => write!(f, "{factor} {a} {b} {label}"),
        }
    }
}

impl fmt::Display for Report {
    ghost output = { λ r. Some (report_text r) };

    fn fmt<W: fmt::Write>(&self, f: &mut fmt::Formatter<W>) -> fmt::Result {
        let number = self.number;
        let layer = self.layer;
        let place = self.place;
        write!(f, "refused {number} {layer} {place}")
    }
}
