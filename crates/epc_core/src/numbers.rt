//! The digits of GTINs and SSCCs, with their check digit.
ghost use Rattle.std.specs.Prelude.{◌≡◌, ℕ, ◌+◌, ◌*◌, ◌<◌, ◌≤◌, ◌%◌, ◌==◌, IsTrue, length};
ghost use Rattle.std.specs.List.{list_all};
ghost use Rattle.epc_core.specs.Numbers.{is_digit, weighted, is_checked, check_digit, leading, number_of, are_parts};

use std::mem;

/// Whether each byte is a digit.
pub(crate) fn are_digits(bytes: &[u8]) -> bool
    ensures { result ≡ list_all is_digit bytes.now }
{
    bytes.iter().all(|b| is_digit(*b))
}

/// Whether a byte is a digit.
fn is_digit(b: u8) -> bool
    ensures { result ≡ is_digit b }
{
    b >= b'0' && b <= b'9'
}

/// Three times the digits in odd places from the left, and the digits in even places, added up.
fn weighted_sum(digits: &[u8]) -> u32
    requires digits { IsTrue (list_all is_digit digits.now) }
    requires few { length digits.now ≤ 18 }
    ensures { result ≡ weighted 3 1 digits.now }
{
    let mut sum = 0;
    let mut weight = 3;
    let mut next = 1;
    for digit in digits {
        sum += weight * u32::from(*digit - b'0');
        mem::swap(&mut weight, &mut next);
    }
    sum
}

/// Whether these are `count` digits, the last of which is the check digit of the others.
pub(crate) fn is_checked(digits: &[u8], count: usize) -> bool
    requires { count ≤ 18 }
    ensures { result ≡ is_checked count digits.now }
{
    digits.len() == count && are_digits(digits) && weighted_sum(digits) % 10 == 0
}

/// The check digit behind an odd number of digits.
fn check_digit(digits: &[u8]) -> u8
    requires digits { IsTrue (list_all is_digit digits.now) }
    requires few { length digits.now ≤ 18 }
    ensures { result ≡ check_digit digits.now }
{
    b'0' + ((10 - weighted_sum(digits) % 10) % 10) as u8
}

/// Whether a company prefix of 6 to 12 digits and a reference are `count` digits together.
pub(crate) fn are_parts(company: &[u8], reference: &[u8], count: usize) -> bool
    ensures { result ≡ are_parts count company.now reference.now }
{
    company.len() >= 6
        && company.len() <= 12
        && company.len() + reference.len() == count
        && are_digits(company)
        && are_digits(reference)
}

/// Writes the number of a company prefix and a reference: the reference's first digit, the company
/// prefix, the rest of the reference and the check digit.
pub(crate) fn write_number(number: &mut [u8], company: &[u8], reference: &[u8])
    requires room { length number.old ≡ length company.now + length reference.now + 1 }
    requires few { length number.old ≤ 18 }
    requires reference { 0 < length reference.now }
    requires company_digits { IsTrue (list_all is_digit company.now) }
    requires reference_digits { IsTrue (list_all is_digit reference.now) }
    ensures { number.new ≡ number_of company.now reference.now }
{
    let last = number.len() - 1;
    let (digits, check) = number.split_at_mut(last);
    write_leading(digits, company, reference);
    check[0] = check_digit(digits);
}

/// Writes the digits of a number before its check digit.
fn write_leading(digits: &mut [u8], company: &[u8], reference: &[u8])
    requires room { length digits.old ≡ length company.now + length reference.now }
    requires reference { 0 < length reference.now }
    ensures { digits.new ≡ leading company.now reference.now }
{
    let (front, back) = digits.split_at_mut(1 + company.len());
    front[0] = reference[0];
    front[1..].copy_from_slice(company);
    back.copy_from_slice(&reference[1..]);
}
