//! The lines of a certificate, read one by one: the first one, which has the version, and those of picks, prices and
//! names.

ghost use Rattle.std.specs.Prelude.{◌≡◌, ◌<◌, ◌≤◌, IfSome};
ghost use Rattle.auc_cert.specs.Fields.{viewed, head_at, pick_line_at, price_line_at, number_at};

use crate::fields::{field_of, index_of};
use crate::form::Form;
use auc_claim::{Pick, Version};
use auc_graph::{MOST_COST, MOST_OBJECTS, MOST_PERSONS, MOST_PRICE};

/// The pick on the line of a person at the front, of one of `most` objects, and the text after the line.
#[tactic(auto, unfolding(crate::specs::Fields::pick_line_at))]
pub(crate) fn pick_of(bytes: &[u8], most: u32, person: u32) -> Option<(Pick, &[u8])>
    requires most { most ≤ MOST_OBJECTS }
    requires person { person < MOST_PERSONS }
    ensures { viewed (λ x. (x.0, x.1.now)) result ≡ pick_line_at most person bytes.now }
{
    let place = person as i64 + 1;
    let (_, rest) = field_of(bytes, b"assign ", place, place, b' ')?;
    let (object, rest) = field_of(rest, b"", 1, most as i64, b' ')?;
    let (cost, rest) = field_of(rest, b"", -MOST_COST, MOST_COST, b'\n')?;
    let pick = Pick {
        object: index_of(object),
        cost,
    };
    Some((pick, rest))
}

/// The price on the line of an object at the front, and the text after the line.
#[tactic(auto, unfolding(crate::specs::Fields::price_line_at))]
pub(crate) fn price_of(bytes: &[u8], object: u32) -> Option<(i64, &[u8])>
    requires { object < MOST_OBJECTS }
    ensures { viewed (λ x. (x.0, x.1.now)) result ≡ price_line_at object bytes.now }
{
    let place = object as i64 + 1;
    let (_, rest) = field_of(bytes, b"price ", place, place, b' ')?;
    field_of(rest, b"", 0, MOST_PRICE, b'\n')
}

/// The number, from `least` to below `end`, on the line at the front, and the text after the line.
#[tactic(auto, unfolding(crate::specs::Fields::number_at))]
pub(crate) fn number_of<'a>(
    bytes: &'a [u8],
    front: &[u8],
    least: u32,
    end: u32,
) -> Option<(u32, &'a [u8])>
    requires { end ≤ MOST_OBJECTS }
    ensures bounds { IfSome result (λ x. (least ≤ x.0) × (x.0 < end)) }
    ensures exact { viewed (λ x. (x.0, x.1.now)) result ≡ number_at front.now least end bytes.now }
{
    let (number, rest) = field_of(bytes, front, least as i64 + 1, end as i64, b'\n')?;
    Some((index_of(number), rest))
}

/// The form that the first line names, and the text after the line; version 3 only where large claims are taken.
#[tactic(auto, unfolding(crate::specs::Fields::head_at, crate::specs::Fields::after))]
pub(crate) fn head_of(bytes: &[u8], large: bool) -> Option<(Form, &[u8])>
    ensures { viewed (λ x. (x.0, x.1.now)) result ≡ head_at large bytes.now }
{
    if let Some(rest) = bytes.strip_prefix(b"auction 1\n".as_slice()) {
        return Some((Form::Usual(Version::First), rest));
    }
    if let Some(rest) = bytes.strip_prefix(b"auction 2\n".as_slice()) {
        return Some((Form::Usual(Version::Second), rest));
    }
    if !large {
        return None;
    }
    let rest = bytes.strip_prefix(b"auction 3\n".as_slice())?;
    Some((Form::Large, rest))
}
