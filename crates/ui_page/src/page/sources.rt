//! `tests/run page_sources --update` writes this file from `page/page.html` and what that includes.

mod after_1;
mod after_2;
mod after_3;
mod after_4;
mod after_5;
mod after_6;
mod before_1;
mod between_1;

/// The page before its drawing.
pub(super) fn before() -> [&'static str; 1] {
    [before_1::TEXT]
}

/// The page between its drawing and its session.
pub(super) fn between() -> [&'static str; 1] {
    [between_1::TEXT]
}

/// The page after its session.
pub(super) fn after() -> [&'static str; 6] {
    [
        after_1::TEXT,
        after_2::TEXT,
        after_3::TEXT,
        after_4::TEXT,
        after_5::TEXT,
        after_6::TEXT,
    ]
}
