// The page of variables in the words of request Q-6, spot for spot. The specs say it, and the law that the bytes of the page are those spots
// is proved here; the code that fills the page is that of `page`.
#![tactic(auto)]

// Every byte of the page.
pub use page::fill;
