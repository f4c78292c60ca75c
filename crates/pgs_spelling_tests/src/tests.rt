mod fields;
mod infos;
mod maps;
mod places;
mod snapsets;
