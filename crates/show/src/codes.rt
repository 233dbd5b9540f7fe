// Schemas and symbol types: their codes, and the names that the public description has for them.
use std::fmt;
use std::fmt::Display;

// A code as it is shown: the number and, where it has a meaning, the name of that.
#[derive(Clone, Copy)]
pub(crate) struct Code<T> {
    number: u64,
    meaning: Option<T>,
}

impl<T: TryFrom<u64, Error = UnknownCode>> From<u64> for Code<T> {
    fn from(number: u64) -> Code<T> {
        Code {
            number,
            meaning: T::try_from(number).ok(),
        }
    }
}

impl<T: Display> Display for Code<T> {
    fn fmt<W: fmt::Write>(&self, f: &mut fmt::Formatter<W>) -> fmt::Result {
        let number = self.number;
        match &self.meaning {
            Some(meaning) => write!(f, "{number} ({meaning})"),
            None => write!(f, "{number}"),
        }
    }
}

// A code that has no meaning.
#[derive(Clone, Copy, Debug)]
pub(crate) struct UnknownCode(u64);

#[derive(Clone, Copy)]
pub(crate) enum Schema {
    Mbo,
    Mbp1,
    Mbp10,
    Tbbo,
    Trades,
    Ohlcv1s,
    Ohlcv1m,
    Ohlcv1h,
    Ohlcv1d,
    Definition,
    Statistics,
    Status,
    Imbalance,
    OhlcvEod,
    Cmbp1,
    Cbbo1s,
    Cbbo1m,
    Tcbbo,
    Bbo1s,
    Bbo1m,
}

impl TryFrom<u64> for Schema {
    type Error = UnknownCode;

    fn try_from(code: u64) -> Result<Self, UnknownCode> {
        Ok(match code {
            0 => Schema::Mbo,
            1 => Schema::Mbp1,
            2 => Schema::Mbp10,
            3 => Schema::Tbbo,
            4 => Schema::Trades,
            5 => Schema::Ohlcv1s,
            6 => Schema::Ohlcv1m,
            7 => Schema::Ohlcv1h,
            8 => Schema::Ohlcv1d,
            9 => Schema::Definition,
            10 => Schema::Statistics,
            11 => Schema::Status,
            12 => Schema::Imbalance,
            13 => Schema::OhlcvEod,
            14 => Schema::Cmbp1,
            15 => Schema::Cbbo1s,
            16 => Schema::Cbbo1m,
            17 => Schema::Tcbbo,
            18 => Schema::Bbo1s,
            19 => Schema::Bbo1m,
            _ => return Err(UnknownCode(code)),
        })
    }
}

impl Display for Schema {
    fn fmt<W: fmt::Write>(&self, f: &mut fmt::Formatter<W>) -> fmt::Result {
        f.write_str(match self {
            Schema::Mbo => "mbo",
            Schema::Mbp1 => "mbp-1",
            Schema::Mbp10 => "mbp-10",
            Schema::Tbbo => "tbbo",
            Schema::Trades => "trades",
            Schema::Ohlcv1s => "ohlcv-1s",
            Schema::Ohlcv1m => "ohlcv-1m",
            Schema::Ohlcv1h => "ohlcv-1h",
            Schema::Ohlcv1d => "ohlcv-1d",
            Schema::Definition => "definition",
            Schema::Statistics => "statistics",
            Schema::Status => "status",
            Schema::Imbalance => "imbalance",
            Schema::OhlcvEod => "ohlcv-eod",
            Schema::Cmbp1 => "cmbp-1",
            Schema::Cbbo1s => "cbbo-1s",
            Schema::Cbbo1m => "cbbo-1m",
            Schema::Tcbbo => "tcbbo",
            Schema::Bbo1s => "bbo-1s",
            Schema::Bbo1m => "bbo-1m",
        })
    }
}

#[derive(Clone, Copy)]
pub(crate) enum Stype {
    InstrumentId,
    RawSymbol,
    Smart,
    Continuous,
    Parent,
    NasdaqSymbol,
    CmsSymbol,
    Isin,
    UsCode,
    BbgCompId,
    BbgCompTicker,
    Figi,
    FigiTicker,
}

impl TryFrom<u64> for Stype {
    type Error = UnknownCode;

    fn try_from(code: u64) -> Result<Self, UnknownCode> {
        Ok(match code {
            0 => Stype::InstrumentId,
            1 => Stype::RawSymbol,
            2 => Stype::Smart,
            3 => Stype::Continuous,
            4 => Stype::Parent,
            5 => Stype::NasdaqSymbol,
            6 => Stype::CmsSymbol,
            7 => Stype::Isin,
            8 => Stype::UsCode,
            9 => Stype::BbgCompId,
            10 => Stype::BbgCompTicker,
            11 => Stype::Figi,
            12 => Stype::FigiTicker,
            _ => return Err(UnknownCode(code)),
        })
    }
}

impl Display for Stype {
    fn fmt<W: fmt::Write>(&self, f: &mut fmt::Formatter<W>) -> fmt::Result {
        f.write_str(match self {
            Stype::InstrumentId => "instrument_id",
            Stype::RawSymbol => "raw_symbol",
            Stype::Smart => "smart",
            Stype::Continuous => "continuous",
            Stype::Parent => "parent",
            Stype::NasdaqSymbol => "nasdaq_symbol",
            Stype::CmsSymbol => "cms_symbol",
            Stype::Isin => "isin",
            Stype::UsCode => "us_code",
            Stype::BbgCompId => "bbg_comp_id",
            Stype::BbgCompTicker => "bbg_comp_ticker",
            Stype::Figi => "figi",
            Stype::FigiTicker => "figi_ticker",
        })
    }
}
