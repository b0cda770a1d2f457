//! `tests/run page_sources --update` writes this file from `page/page.html` and what that includes.

pub(super) static TEXT: &str = r#"</pre>
</noscript>
<script id=session type=application/json>
"#;
