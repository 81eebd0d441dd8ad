//! Laws of the order of decimal numbers. Nothing runs here.
ghost use Rattle.std.specs.Prelude.{◌≡◌, ◌↔◌};
ghost use Rattle.std.specs.Cmp.{IsTotalOrder};
ghost use Rattle.std.specs.declared.cmp.Ordering.TheVariants.{Equal};
ghost use Rattle.field_types.specs.declared.values.Dec.{Dec};
ghost use Rattle.decimal_order.specs.DecimalOrder.{compare_numbers, HaveOneValue};

/// The order is total, and numbers of one value, and no others, are equal in it.
pub fn order_is_total()
    ensures total { IsTotalOrder compare_numbers }
    ensures value { (a b : Dec) → (compare_numbers a b ≡ Equal) ↔ HaveOneValue a b }
{}
