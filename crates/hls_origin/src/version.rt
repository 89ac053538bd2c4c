//! The version, defined only here: the package takes it from here, and `tests/gate/versions` compares other mentions with it.

/// The program's version.
pub const VERSION: &str = "0.2.0";

/// The toolchain that verifies it, by its own name.
pub const TOOLCHAIN: &str = "rattle-kit-13f logic dac8208d650f15bf";
