ghost use Rattle.std.specs.Prelude.{◌≡◌, ℕ, ◌<◌, ◌≤◌, length, slice_index};
ghost use Rattle.model.specs.Limits.{most_speed};

// A ladder whose speeds are listed one by one, at most 16: the first of a table. It is copied freely and takes no heap,
// so its table is none of the library's vectors; and no clause sees it as its list, since a copy gives back the whole
// table.
#[derive(Clone, Copy)]
pub struct Listed {
    pub(crate) table: [u32; 16],
    pub(crate) count: usize,
    ghost whole: { length table ≡ 16 },
    ghost some: { 1 ≤ count },
    ghost few: { count ≤ 16 },
    ghost least: { (i : ℕ) → i < count → 1 ≤ slice_index table i },
    ghost most: { (i : ℕ) → i < count → slice_index table i ≤ most_speed },
    ghost rises: { (i j : ℕ) → (i < j) × (j < count) → slice_index table i < slice_index table j },
}
