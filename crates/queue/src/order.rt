ghost use Rattle.std.specs.Prelude.{◌≡◌, Bool, true, false};

// What a queue can hold: values of which one comes before the other, unless they are equal in all fields.
// `Ord` would say of two values that tie only that they are `==`, and not that they are the same entry.
pub trait Entry: Copy {
    ghost before: { Self → Self → Bool };

    // Whether this one comes before the other.
    fn before(&self, other: &Self) -> bool
        ensures { result ≡ before self.now other.now };

    ghost asymmetric: { (x y : Self) → before x y ≡ true → before y x ≡ false };

    ghost total: { (x y : Self) → before x y ≡ false → before y x ≡ false → x ≡ y };

    ghost transitive: { (x y z : Self) → before x y ≡ true → before y z ≡ true → before x z ≡ true };
}
