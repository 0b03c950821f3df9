//! The theory of predictive grammars, those in which the next token determines the alternative: for descriptions and for Verilog.
//!
//! A grammar is data (`specs/Grammar.antt`), what it derives is one relation, and a machine reads a text by the tables of the grammar (`specs/Tables.antt`,
//! `specs/Machine.antt`). `laws` relates the two, for every grammar whose tables pass a test: the machine accepts the sentences and nothing else, and
//! stops at the first wrong token; where the nonterminals have ranks (`specs/Ranks.antt`) it ends on every text. `specs/Sample.antt` is a small complete grammar.
//! `docs/PARSING.md` describes how the reader of a language is built on this. There is no code here.
#![tactic(auto)]

pub mod laws;
