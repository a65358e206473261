// The fields of 8 and of 256 elements: document 01, section Field. Sum, product, powers and inverse as calls that refuse what is no
// field or no element. The modules have the same for the word code, which has checked its setting already.
#![tactic(auto)]

pub mod lanes;
pub mod shifts;
pub mod tables;

ghost use Rattle.std.specs.Prelude.{◌≡◌};
ghost use Rattle.field.specs.Answers.{is_field, is_element, element_outcome, product_of, power_of, inverse_of};
ghost use Rattle.field.specs.Elements.{wide};
ghost use Rattle.algebra.specs.Xor.{◌⊕◌};

// Why a call has no element to give. Document 01's numbers of the two are 1 and 3.
#[derive(Clone, Copy, Debug, PartialEq, Eq)]
pub enum FieldError {
    BadField,
    BadSymbol,
}

// m is 3 or 8.
pub fn is_field(m: usize) -> bool
    ensures { result ≡ is_field m }
{
    m == 3 || m == 8
}

// x is an element of the field that m names.
fn is_element(m: usize, x: u8) -> bool
    ensures { result ≡ is_element (wide m) x }
{
    m != 3 || x < 8
}

// The sum of two polynomials, and so of two elements: exclusive or.
pub fn sum(x: u8, y: u8) -> u8
    ensures { result ≡ x ⊕ y }
{
    x ^ y
}

// The product of two elements. Refused 1 where m is not 3 or 8, and 3 where a factor is not below 2^m.
pub fn product(m: usize, x: u8, y: u8) -> Result<u8, FieldError>
    ensures { element_outcome result ≡ product_of m x y }
{
    if !is_field(m) {
        return Err(FieldError::BadField);
    }
    if !is_element(m, x) {
        return Err(FieldError::BadSymbol);
    }
    if !is_element(m, y) {
        return Err(FieldError::BadSymbol);
    }
    Ok(shifts::times(m, x, y))
}

// The i-th power of a, which is 2. Refused 1 where m is not 3 or 8.
pub fn power(m: usize, i: usize) -> Result<u8, FieldError>
    ensures { element_outcome result ≡ power_of m i }
{
    if !is_field(m) {
        return Err(FieldError::BadField);
    }
    Ok(tables::power_at(m, i))
}

// The element whose product with x is 1. Refused 1 where m is not 3 or 8, and 3 where x is 0 or not below 2^m.
pub fn inverse(m: usize, x: u8) -> Result<u8, FieldError>
    ensures { element_outcome result ≡ inverse_of m x }
{
    if !is_field(m) {
        return Err(FieldError::BadField);
    }
    if !is_element(m, x) {
        return Err(FieldError::BadSymbol);
    }
    if x == 0 {
        return Err(FieldError::BadSymbol);
    }
    Ok(shifts::inverse_at(m, x))
}
