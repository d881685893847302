//! Laws of the ratios that contracts cite.
ghost use Rattle.lucy_fraction.specs.Laws.{ReducedIsUnique, SumKeepsSame, ProductKeepsSame, QuotientTimesDivisor};

/// A rational number has one reduced form, so equal fractions have equal parts.
pub fn reduced_is_unique()
    ensures { ReducedIsUnique }
{}

/// Sums of equal ratios are equal: the sum is one of rational numbers, whatever ratios stand for them.
pub fn sum_keeps_same()
    ensures { SumKeepsSame }
{}

/// Products of equal ratios are equal: the product is one of rational numbers, whatever ratios stand for them.
pub fn product_keeps_same()
    ensures { ProductKeepsSame }
{}

/// A quotient times its divisor is the dividend.
pub fn quotient_times_divisor()
    ensures { QuotientTimesDivisor }
{}
