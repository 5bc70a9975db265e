//! Why a text spells no item.

ghost use Rattle.std.specs.Prelude.{◌≡◌};
ghost use Rattle.item_spellings.specs.Names.{scan_fault_name};

use thiserror::Error;

/// Why a scanned text spells no item.
#[derive(Debug, Clone, Copy, PartialEq, Eq, Error)]
pub enum ScanFault {
    /// The text is no list of element strings.
    #[error("the text is no list of GS1 element strings")]
    NoElements,
    /// An AI that names the item stands twice, with different values.
    #[error("an application identifier stands twice, with different values")]
    Differing,
    /// There are an SSCC and a GTIN with a serial number.
    #[error("the text spells an SSCC and a GTIN with a serial number")]
    TwoItems,
    /// There is neither an SSCC nor a GTIN.
    #[error("the text has neither an SSCC (00) nor a GTIN (01)")]
    NoItem,
    /// There is a GTIN without a serial number or a lot.
    #[error("the GTIN (01) has neither a serial number (21) nor a lot (10)")]
    NoSerial,
    /// The last digit of the GTIN or of the SSCC isn't its check digit.
    #[error("the check digit is wrong")]
    CheckDigit,
    /// The serial number has more than 20 characters, or one that none has.
    #[error("the serial number has more than 20 characters, or one that none has")]
    BadSerial,
    /// The lot has more than 20 characters, or one that none has.
    #[error("the lot has more than 20 characters, or one that none has")]
    BadLot,
}

impl ScanFault {
    /// Its name, as a refusal prints it.
    pub fn name(&self) -> &'static str
        ensures { result.now ≡ scan_fault_name self.now }
    {
        match self {
            ScanFault::NoElements => "NoElements",
            ScanFault::Differing => "Differing",
            ScanFault::TwoItems => "TwoItems",
            ScanFault::NoItem => "NoItem",
            ScanFault::NoSerial => "NoSerial",
            ScanFault::CheckDigit => "CheckDigit",
            ScanFault::BadSerial => "BadSerial",
            ScanFault::BadLot => "BadLot",
        }
    }
}

/// Why a text doesn't spell an item.
#[derive(Debug, Clone, Copy, PartialEq, Eq, Error)]
pub enum SpellingFault {
    /// It is no EPC text.
    #[error("the text is no EPC")]
    NoEpc,
    /// It is no item's printed key.
    #[error("the text is no item's printed key")]
    NoKey,
    /// It isn't what a scanner gives of an item.
    #[error("{0}")]
    NoScan(ScanFault),
}
