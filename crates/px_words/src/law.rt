// Laws of operators, over whole numbers.
ghost use Rattle.px_words.specs.Readings.{DifferenceIsExact, DifferenceTest, LowKeepsSigned, LowKeepsUnsigned, LowReadsLow, ProductIsExact, ProductTest, SignExtensionReadsLow, SignedDifferenceIsExact, SignedDifferenceTest, SignedProductIsExact, SignedProductTest, SignedSumIsExact, SignedSumTest, SumIsExact, SumTest, WideningKeepsSigned, WideningKeepsUnsigned, ZeroExtensionReadsLow};

/// Sums, differences and products that don't leave the range are those of the numbers that the patterns are, read signed or unsigned;
/// and the tests of overflow are 1 exactly where they do. The call changes nothing.
pub fn arithmetic_is_exact()
    ensures sum { SumIsExact }
    ensures difference { DifferenceIsExact }
    ensures product { ProductIsExact }
    ensures signed_sum { SignedSumIsExact }
    ensures signed_difference { SignedDifferenceIsExact }
    ensures signed_product { SignedProductIsExact }
    ensures sum_test { SumTest }
    ensures difference_test { DifferenceTest }
    ensures product_test { ProductTest }
    ensures signed_sum_test { SignedSumTest }
    ensures signed_difference_test { SignedDifferenceTest }
    ensures signed_product_test { SignedProductTest }
{}

/// Extensions and `Low` have the numbers of the bits that they keep. The call changes nothing.
pub fn extensions_keep_numbers()
    ensures sign { SignExtensionReadsLow }
    ensures zero { ZeroExtensionReadsLow }
    ensures signed_widening { WideningKeepsSigned }
    ensures unsigned_widening { WideningKeepsUnsigned }
    ensures low { LowReadsLow }
    ensures signed_low { LowKeepsSigned }
    ensures unsigned_low { LowKeepsUnsigned }
{}
