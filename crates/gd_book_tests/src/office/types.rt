//! An office of whose books nothing is known beforehand.

use std::marker::Brand;

pub(crate) type Office = gd_office::Office<Brand>;

pub(crate) type Session<'o> = gd_office_part::Session<'o, Brand>;

pub(crate) type Slot = gd_office_part::Slot<Brand>;
