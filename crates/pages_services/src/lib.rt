//! The examples of the pages of the libraries that need neither a schedule nor SQL: links, frames, sessions, a broker, a
//! client, and what services tell each other, do with it, and keep.
//!
//! Each is proved, so it is a caller that meets what these libraries require. No compiler builds them here:
//! `tests/test_pages` runs each with its checks on, and the gate compares what it prints.
#![tactic(auto)]

mod examples;

pub use examples::{
    a_broker_answers_connect, a_client_asks_to_connect, a_command_is_taken_in,
    a_connected_client_subscribes, a_frame_before_connect_is_refused, a_frame_is_read_from_pieces,
    a_frame_that_was_put_back_is_the_next, a_free_room_is_promised, a_letter_comes_again,
    a_line_is_read_again, a_mark_is_one_change, a_mark_is_read,
    a_mark_is_the_greatest_number_raised, a_message_is_accepted, a_receipt_is_closed_once,
    a_server_is_asked_to_end, a_settle_is_sent, a_time_is_written, a_transaction_keeps_its_actions,
    an_entity_is_named_again, an_idle_destination_is_closed, an_order_is_refused,
    answers_reach_back_in_mode_client, first_state_of, lawful_journals_stay_lawful,
    letters_stay_delivered, no_mark_is_taken_back, nothing_goes_out_before_the_broker_answers,
    nothing_is_held_at_first, one_copy_is_set_aside, one_more_life_was_lived, order_of_one,
    printed_octets_are_read, services_without_orders_agree, so_much_is_on_hand,
    so_much_is_the_limit, tables_hold_nothing_at_first, three_parts_are_one_text,
    what_a_broker_brought_is_a_step, what_a_client_reads_was_sent, what_comes_early_waits,
    what_wants_an_ack_stays_until_it_comes, what_was_put_is_taken, what_was_remembered_is_known,
    words_that_are_no_text_are_told,
};
