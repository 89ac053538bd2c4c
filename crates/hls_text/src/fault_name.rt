//! The name of a fault.

/// The name of a variant of an enum.
#[macro_export]
macro_rules! variant_name {
    ($fault:expr; $type:ident: $($variant:ident),*) => {
        match $fault {
            $($type::$variant { .. } => stringify!($variant)),*
        }
    };
}
