mod boards;
mod devices;
mod expected;
mod names;
mod runs;
