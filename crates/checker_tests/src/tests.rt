mod boards;
mod expected;
mod growths;
mod joins;
mod search;
