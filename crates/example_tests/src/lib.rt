//! One example of each library, as its README shows it. `tests/readme_examples.py` compares them.
#![tactic(auto)]

#[cfg(test)]
mod bodies;
#[cfg(test)]
mod uses_back_answers;
#[cfg(test)]
mod uses_book_desk;
#[cfg(test)]
mod uses_bucket_lanes;
#[cfg(test)]
mod uses_byte_ends;
#[cfg(test)]
mod uses_decimals;
#[cfg(test)]
mod uses_delta_book;
#[cfg(test)]
mod uses_gate_workers;
#[cfg(test)]
mod uses_gateway_options;
#[cfg(test)]
mod uses_gateway_rehearse;
#[cfg(test)]
mod uses_gateway_serve;
#[cfg(test)]
mod uses_http_edge;
#[cfg(test)]
mod uses_json_points;
#[cfg(test)]
mod uses_metric_events;
#[cfg(test)]
mod uses_otlp_protobuf;
#[cfg(test)]
mod uses_otlp_read;
#[cfg(test)]
mod uses_out_texts;
#[cfg(test)]
mod uses_play_script;
#[cfg(test)]
mod uses_series_cell;
#[cfg(test)]
mod uses_series_id;
#[cfg(test)]
mod uses_shared_book;
