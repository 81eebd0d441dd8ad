//! The record that values make which are given through a format.
ghost use Rattle.std.specs.Prelude.{IfOk};
ghost use Rattle.std.specs.Option.{ForSome, option_copied};
ghost use Rattle.record_fmt.specs.Records.{Packs};
ghost use Rattle.file_model.specs.Views.{base_image};
ghost use Rattle.logical_paths.specs.Found.{HoldsRecord};
ghost use Rattle.view_records.specs.Through.{IsFormatOf, IsWrittenThrough};

use field_types::values::Value;
use logical_model::dds_logical::views::View;
use logical_paths::view_rules::storing;
use record_fmt::formats::{Format, PackFault};
use std::alloc::Global;

/// The record of the base file that values make which are given through a format, over the old record where one is changed:
/// as long as the base file's fields together, with a value in each.
pub fn image_given(
    alloc: Global,
    base: &Format,
    view: &View,
    given: &[Option<Value>],
    old: Option<&[u8]>,
) -> Result<Vec<u8>, PackFault>
    requires written { IsWrittenThrough base.now.fields view.now }
    requires format { IsFormatOf view.now }
    requires old { ForSome old (λ image. HoldsRecord base.now.fields image.now) }
    ensures packed { Packs (base_image base.now.fields view.now.mapping given.now (option_copied old.entry)) result }
    ensures holds { IfOk result (λ image. HoldsRecord base.now.fields image.items) }
{
    // The fields of both formats lie one behind another, and are few.
    let _below = base.fields.as_slice();
    let _fields = view.format.fields.as_slice();
    storing::base(alloc, base, view.mapping.as_slice(), given, old)
}
