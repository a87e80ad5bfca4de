//! Heights within their limits. They do not know the points they belong to.

ghost use Rattle.std.specs.Prelude.{◌≡◌, [], ◌≤◌, length, IfOk};
ghost use Rattle.std.specs.List.{AllByRecursion};
ghost use Rattle.tv_lattice.specs.Limits.{IsHeight};
ghost use Rattle.tv_report_reader.specs.Checks.{HeightsFit};

use std::alloc::{AllocError, Global};
use std::marker::Model;

/// At most 64 heights, each within its limit.
#[derive(Drop)]
pub(crate) struct ReportHeights {
    values: Vec<i64>,
}

impl Model for ReportHeights {
    ghost use Rattle.std.specs.Prelude.{List, ℤ};
    ghost use Rattle.tv_report_reader.specs.Checks.{AreFewHeights};

    ghost Value = { List ℤ };

    ghost view = { λ h. h.values.items };

    ghost invariant = { λ h. AreFewHeights h.values.items };
}

impl ReportHeights {
    /// No heights. It takes no memory.
    pub(crate) fn none(alloc: Global) -> ReportHeights
        ensures { result ≡ [] }
    {
        ReportHeights {
            values: Vec::new(alloc),
        }
    }

    pub(crate) fn new(values: Vec<i64>) -> ReportHeights
        requires { HeightsFit values.items }
        ensures { result ≡ values.items }
    {
        ReportHeights { values }
    }

    pub(crate) fn values(&self) -> &[i64]
        ensures value { result.now ≡ self.now }
        ensures few { length result.now ≤ 64 }
        ensures small { AllByRecursion IsHeight result.now }
    {
        &self.values
    }

    /// The values once more. It errs only for want of memory.
    pub(crate) fn copy(&self, alloc: Global) -> Result<Vec<i64>, AllocError>
        ensures value { IfOk result (λ v. v.items ≡ self.now) }
        ensures small { IfOk result (λ v. AllByRecursion IsHeight v.items) }
    {
        self.values.to_vec(alloc)
    }
}
