//! The name of an opening.
use std::marker::Brand;

/// Which opening it is, as a parameter of each type that belongs to it: so the name outlasts a lock and a channel. A program
/// picks it once, at its call of a function that is generic in it.
pub trait Naming {
    ghost use Rattle.tb_published.specs.Openings.{Opening};

    ghost opening: { Opening };
}

impl Naming for Brand {
    ghost use Rattle.tb_records.specs.declared.limits.Profile.TheVariants.{One};

    ghost opening = { record {
      book = record { number = 0; log_name = 0; cells_name = 0 };
      profile = One;
      clients_max = 1;
    } };
}
