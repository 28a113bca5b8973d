//! Numbers of `#if`, and their conversions.

ghost use Rattle.std.specs.Prelude.{◌≡◌};
ghost use Rattle.cl_const.specs.Numbers.{as_unsigned, common, converted, is_true, is_unsigned, truth};

/// A value in `#if`: all integer types act as `intmax_t` or as `uintmax_t`, of 64 bits (N1570 6.10.1p4).
#[derive(Clone, Copy)]
pub enum Number {
    Signed(i64),
    Unsigned(u64),
}

/// Two operands of one type.
#[derive(Clone, Copy)]
pub enum Pair {
    Signed(i64, i64),
    Unsigned(u64, u64),
}

impl Number {
    /// Whether its type is `uintmax_t`.
    pub fn is_unsigned(self) -> bool
        ensures { result ≡ is_unsigned self }
    {
        match self {
            Number::Signed(_) => false,
            Number::Unsigned(_) => true,
        }
    }

    /// Whether it isn't 0.
    pub fn is_true(self) -> bool
        ensures { result ≡ is_true self }
    {
        match self {
            Number::Signed(value) => value != 0,
            Number::Unsigned(value) => value != 0,
        }
    }

    /// The value as `uintmax_t` (6.3.1.3).
    pub fn as_unsigned(self) -> u64
        ensures { result ≡ as_unsigned self }
    {
        match self {
            Number::Signed(value) => value.cast_unsigned(),
            Number::Unsigned(value) => value,
        }
    }

    /// The value in the type that is asked for, where it isn't signed to be made of an unsigned one.
    pub fn converted(self, unsigned: bool) -> Number
        ensures { result ≡ converted unsigned self }
    {
        if unsigned {
            Number::Unsigned(self.as_unsigned())
        } else {
            self
        }
    }

    /// 1 or 0, as comparisons and logical operators give them.
    pub fn truth(holds: bool) -> Number
        ensures { result ≡ truth holds }
    {
        if holds {
            Number::Signed(1)
        } else {
            Number::Signed(0)
        }
    }

    /// The usual arithmetic conversions (6.3.1.8): unsigned if either is.
    pub fn common(self, other: Number) -> Pair
        ensures { result ≡ common self other }
    {
        match (self, other) {
            (Number::Signed(left), Number::Signed(right)) => Pair::Signed(left, right),
            _ => Pair::Unsigned(self.as_unsigned(), other.as_unsigned()),
        }
    }
}
