//! Tests of the order of keys, of sorted pages, of kept access paths and of the lock table.
#![tactic(auto)]

#[cfg(test)]
mod changes;
#[cfg(test)]
mod followed;
#[cfg(test)]
mod given_rows;
#[cfg(test)]
mod heads;
#[cfg(test)]
mod images;
#[cfg(test)]
mod key_rows;
#[cfg(test)]
mod keyed;
#[cfg(test)]
mod keys;
#[cfg(test)]
mod locks;
#[cfg(test)]
mod orders;
#[cfg(test)]
mod pages;
#[cfg(test)]
mod record_paths;
#[cfg(test)]
mod shared_paths;
