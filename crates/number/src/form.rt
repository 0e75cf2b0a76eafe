ghost use Rattle.std.specs.Prelude.{◌≤◌};

// The bytes of a number: at most five groups. They are copied freely, as the library's vector in an array is not.
#[derive(Clone, Copy)]
pub struct Groups {
    pub(crate) bytes: [u8; 5],
    pub(crate) len: usize,
    ghost fits: { len ≤ 5 },
}
