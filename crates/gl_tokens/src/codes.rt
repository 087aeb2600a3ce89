//! A family's table, written once: `read` makes of it the value of a code, `written` the code of a value.

macro_rules! read {
    ($code:ident; $($value:ident = $number:literal),* $(,)?) => {
        match $code {
            $($number => Some(Self::$value),)*
            _ => None,
        }
    };
}

macro_rules! written {
    ($value:ident; $($variant:ident = $number:literal),* $(,)?) => {
        match $value {
            $(Self::$variant => $number,)*
        }
    };
}

pub(crate) use read;
pub(crate) use written;
