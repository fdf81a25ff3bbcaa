//! Residue classes: the whole numbers that agree with one number modulo another.

ghost use Rattle.std.specs.Prelude.{◌<◌, ◌≤◌, ◌^◌, pos, ◌+ℤ◌, ◌<ℤ◌, unsigned_abs};

/// The whole numbers that agree with `residue` modulo `modulus`.
#[derive(Clone, Copy)]
pub(crate) struct ResidueClass {
    pub residue: u32,
    pub modulus: u32,
    ghost reduced: { residue < modulus },
}

impl ResidueClass {
    ghost use Rattle.residue_solve.specs.ResidueClass.{IsIn};
    ghost use Rattle.residue_solve.specs.Least.{IsLeastFrom};

    /// Gives the least number of the class at or after `from`. Takes no memory.
    pub fn next_from(self, from: i128) -> i128
        requires small { self.modulus ≤ 1000000 }
        requires from { unsigned_abs from < 2 ^ 60 }
        ensures least { IsLeastFrom from (IsIn self) result }
        ensures near { result <ℤ (from +ℤ pos 1000000) }
    {
        from + (i128::from(self.residue) - from).rem_euclid(i128::from(self.modulus))
    }
}
