// The units of a record's numbers, a type each, so that one quantity can't be passed for another. Assumes nothing of the caller: any
// number can be held, and what a record can't hold is refused when it is written.
ghost use Rattle.std.specs.Prelude.{◌≡◌, ℕ, refl};

// A unit whose numbers stand in their field as plain digits: the number is kept as it was read.
pub(crate) trait Unit: Copy {
    ghost of: { ℕ → Self };

    ghost worth: { Self → ℕ };

    fn of(n: u32) -> Self
        ensures { result ≡ of n };

    fn number(self) -> u32
        ensures { result ≡ worth self };

    ghost kept: { (n : ℕ) → worth (of n) ≡ n };

    ghost whole: { (v : Self) → of (worth v) ≡ v };
}

// The required navigation performance as its three digits.
#[derive(Clone, Copy, Debug, PartialEq, Eq)]
pub struct Rnp(pub u32);

#[derive(Clone, Copy, Debug, PartialEq, Eq)]
pub struct TenthsOfDegree(pub u32);

// Degrees from true north.
#[derive(Clone, Copy, Debug, PartialEq, Eq)]
pub struct WholeDegrees(pub u32);

#[derive(Clone, Copy, Debug, PartialEq, Eq)]
pub struct HundredthsOfDegree(pub u32);

#[derive(Clone, Copy, Debug, PartialEq, Eq)]
pub struct TenthsOfMile(pub u32);

#[derive(Clone, Copy, Debug, PartialEq, Eq)]
pub struct ThousandthsOfMile(pub u32);

#[derive(Clone, Copy, Debug, PartialEq, Eq)]
pub struct TenthsOfMinute(pub u32);

#[derive(Clone, Copy, Debug, PartialEq, Eq)]
pub struct Feet(pub u32);

#[derive(Clone, Copy, Debug, PartialEq, Eq)]
pub struct FlightLevel(pub u32);

#[derive(Clone, Copy, Debug, PartialEq, Eq)]
pub struct Knots(pub u32);

impl Unit for Rnp {
    ghost of = { λ n. record { 0 = n } };

    ghost worth = { λ v. v.0 };

    ghost kept = { λ n. refl };

    ghost whole = { λ v. refl };

    fn of(n: u32) -> Rnp {
        Rnp(n)
    }

    fn number(self) -> u32 {
        self.0
    }
}

impl Unit for ThousandthsOfMile {
    ghost of = { λ n. record { 0 = n } };

    ghost worth = { λ v. v.0 };

    ghost kept = { λ n. refl };

    ghost whole = { λ v. refl };

    fn of(n: u32) -> ThousandthsOfMile {
        ThousandthsOfMile(n)
    }

    fn number(self) -> u32 {
        self.0
    }
}

impl Unit for TenthsOfDegree {
    ghost of = { λ n. record { 0 = n } };

    ghost worth = { λ v. v.0 };

    ghost kept = { λ n. refl };

    ghost whole = { λ v. refl };

    fn of(n: u32) -> TenthsOfDegree {
        TenthsOfDegree(n)
    }

    fn number(self) -> u32 {
        self.0
    }
}

impl Unit for TenthsOfMile {
    ghost of = { λ n. record { 0 = n } };

    ghost worth = { λ v. v.0 };

    ghost kept = { λ n. refl };

    ghost whole = { λ v. refl };

    fn of(n: u32) -> TenthsOfMile {
        TenthsOfMile(n)
    }

    fn number(self) -> u32 {
        self.0
    }
}

impl Unit for Feet {
    ghost of = { λ n. record { 0 = n } };

    ghost worth = { λ v. v.0 };

    ghost kept = { λ n. refl };

    ghost whole = { λ v. refl };

    fn of(n: u32) -> Feet {
        Feet(n)
    }

    fn number(self) -> u32 {
        self.0
    }
}

impl Unit for Knots {
    ghost of = { λ n. record { 0 = n } };

    ghost worth = { λ v. v.0 };

    ghost kept = { λ n. refl };

    ghost whole = { λ v. refl };

    fn of(n: u32) -> Knots {
        Knots(n)
    }

    fn number(self) -> u32 {
        self.0
    }
}
