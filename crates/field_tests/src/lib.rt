//! Tests of fields, their values, formats, members and the code page.
#![tactic(auto)]

#[cfg(test)]
mod code_page;
#[cfg(test)]
mod decimals;
#[cfg(test)]
mod field_images;
#[cfg(test)]
mod field_lists;
#[cfg(test)]
mod formats;
#[cfg(test)]
mod image_rows;
#[cfg(test)]
mod slots;
#[cfg(test)]
mod value_rows;
