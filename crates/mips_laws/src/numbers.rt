ghost use Rattle.mips_laws.specs.Branches.{BranchesOnEquality, BranchesOnSign};
ghost use Rattle.mips_laws.specs.Comparisons.{SignedComparisons, UnsignedComparisons};
ghost use Rattle.mips_laws.specs.Division.{DivDivides, DivOverflowRow, DivisionIsOne, DivuDivides, ZeroDivides};
ghost use Rattle.mips_laws.specs.Products.{MultMultiplies, MultuMultiplies};
ghost use Rattle.mips_laws.specs.Shifts.{SignedShifts, UnsignedShifts};
ghost use Rattle.mips_laws.specs.Sums.{AdduAddsModulo, SubuSubtractsModulo, SumsAreWhole};

/// `div` and `divu` leave a quotient and a remainder of whole numbers: quotient times divisor, plus
/// remainder, is the dividend, and the remainder is smaller in size than the divisor and has the
/// dividend's sign. There is one such pair. -2^31 by -1 has a row of its own, and so has a divisor 0.
pub fn divisions_divide()
    ensures signed { DivDivides }
    ensures overflow_row { DivOverflowRow }
    ensures unsigned { DivuDivides }
    ensures by_zero { ZeroDivides }
    ensures one { DivisionIsOne }
{}

/// `mult` and `multu` leave the whole product in HI and LO.
pub fn products_are_whole()
    ensures signed { MultMultiplies }
    ensures unsigned { MultuMultiplies }
{}

/// `addu`, `addiu` and `subu` count modulo 2^32. `add`, `addi` and `sub` are the whole sum or difference of
/// signed numbers, and fault by Overflow exactly where 32 signed bits don't hold it.
pub fn sums_are_whole()
    ensures signed { SumsAreWhole }
    ensures addu { AdduAddsModulo }
    ensures subu { SubuSubtractsModulo }
{}

/// Shifts are products and quotients by powers of two.
pub fn shifts_are_powers_of_two()
    ensures unsigned { UnsignedShifts }
    ensures signed { SignedShifts }
{}

/// `slt`, `slti`, `sltu` and `sltiu` set 1 exactly where the first number is less than the second.
pub fn comparisons_are_less_than()
    ensures signed { SignedComparisons }
    ensures unsigned { UnsignedComparisons }
{}

/// Branches are taken exactly where their conditions hold of whole numbers, and go to the target of
/// their immediate, or on.
pub fn branches_go_where_conditions_hold()
    ensures equality { BranchesOnEquality }
    ensures sign { BranchesOnSign }
{}
