//! Values that are lent or owned.

ghost use Rattle.std.specs.Prelude.{◌≡◌};
ghost use Rattle.cl_base.specs.Lent.{lent_value};

/// A value that is lent by what keeps it, or a copy of one.
#[derive(Drop)]
pub enum Lent<'a, T> {
    /// It is kept elsewhere.
    Shared(&'a T),
    /// It is owned here.
    Own(Box<T>),
}

impl<'a, T> Lent<'a, T> {
    /// The value.
    pub fn get(&self) -> &T
        ensures { result.now ≡ lent_value self.now }
    {
        match self {
            Lent::Shared(value) => value,
            Lent::Own(value) => value,
        }
    }
}
