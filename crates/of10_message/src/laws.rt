//! Laws of the definitions. Each function's contract is the law; its body does nothing.

ghost use Rattle.std.specs.Prelude.{ℕ, ◌≡◌, ◌<◌, ◌≤◌, List, length, drop, Ok};
ghost use Rattle.std.specs.List.{All};
ghost use Rattle.of10_ctl.specs.declared.kind.TheConstants.{GET_CONFIG_REPLY, SET_CONFIG, QUEUE_GET_CONFIG_REQUEST, QUEUE_GET_CONFIG_REPLY};
ghost use Rattle.of10_ctl.specs.Frames.{message_of, is_bad};
ghost use Rattle.of10_ctl.specs.Kinds.{IsOf};
ghost use Rattle.of10_message.specs.declared.config.SwitchConfig.{SwitchConfig};
ghost use Rattle.of10_message.specs.declared.queues.QueuesQuestion.{QueuesQuestion};
ghost use Rattle.of10_message.specs.Configs.{IsConfig, read_config, spell_set_config, spell_config_reply};
ghost use Rattle.of10_message.specs.Queues.{IsQueuesQuestion, read_queues_request, read_queues, queues_in, spell_queues_request, spell_queues_reply};
ghost use Rattle.of10_message.specs.declared.controller.FromController.TheVariants.{SetConfig, QueueGetConfigRequest};
ghost use Rattle.of10_message.specs.Controller.{read_controller};
ghost use Rattle.of10_message.specs.Switch.{GetConfigReply, QueueGetConfigReply, read_switch, has_bad_length};

/// How a switch is to be set is read as it was spelled (OpenFlow 1.0.0, section 5.3.2).
pub fn set_config_is_read_again()
    ensures again { (xid : ℕ) (config : SwitchConfig) → IsConfig config → read_config (spell_set_config xid config) ≡ Ok config }
    ensures kind { (xid : ℕ) (config : SwitchConfig) → IsOf SET_CONFIG (spell_set_config xid config) }
{}

/// So is how it is set.
pub fn config_reply_is_read_again()
    ensures again { (xid : ℕ) (config : SwitchConfig) → IsConfig config → read_config (spell_config_reply xid config) ≡ Ok config }
    ensures kind { (xid : ℕ) (config : SwitchConfig) → IsOf GET_CONFIG_REPLY (spell_config_reply xid config) }
{}

/// So is a question for the queues of a port (OpenFlow 1.0.0, section 5.3.4).
pub fn queues_request_is_read_again()
    ensures again { (xid : ℕ) (question : QueuesQuestion) → IsQueuesQuestion question → read_queues_request (spell_queues_request xid question) ≡ Ok question }
    ensures kind { (xid : ℕ) (question : QueuesQuestion) → IsQueuesQuestion question → IsOf QUEUE_GET_CONFIG_REQUEST (spell_queues_request xid question) }
{}

/// A question that was read of bytes is passed on with the body with which it came.
pub fn queues_request_is_passed_as_it_came()
    ensures { (xid : ℕ) (message : List ℕ) (question : QueuesQuestion) → All (λ byte. byte < 256) message → read_queues_request message ≡ Ok question → spell_queues_request xid question ≡ message_of QUEUE_GET_CONFIG_REQUEST xid (drop 8 message) }
{}

/// A reply on queues is read as it was spelled: the port with which its body begins, and the body.
pub fn queues_reply_is_read_again()
    ensures again { (xid : ℕ) (body : List ℕ) → 8 ≤ length body → length body ≤ 65527 → read_queues (spell_queues_reply xid body) ≡ Ok (queues_in body) }
    ensures kind { (xid : ℕ) (body : List ℕ) → length body ≤ 65527 → IsOf QUEUE_GET_CONFIG_REPLY (spell_queues_reply xid body) }
{}

/// How a switch is to be set is read of a controller as it was spelled (OpenFlow 1.0.0, section 5.3.2).
pub fn set_config_is_read()
    ensures { (xid : ℕ) (config : SwitchConfig) → IsConfig config → read_controller (spell_set_config xid config) ≡ Ok (SetConfig config) }
{}

/// So is a question for the queues of a port (OpenFlow 1.0.0, section 5.3.4).
pub fn queues_request_is_read()
    ensures { (xid : ℕ) (question : QueuesQuestion) → IsQueuesQuestion question → read_controller (spell_queues_request xid question) ≡ Ok (QueueGetConfigRequest question) }
{}

/// A message reads as one of a bad length exactly where its length doesn't count its header (OpenFlow 1.0.0,
/// section 5.1).
pub fn bad_length_is_read()
    ensures { (bytes : List ℕ) → has_bad_length (read_switch bytes) ≡ is_bad bytes }
{}

/// How a switch is set is read of it as it was spelled (OpenFlow 1.0.0, section 5.3.2).
pub fn config_reply_is_read()
    ensures { (xid : ℕ) (config : SwitchConfig) → IsConfig config → read_switch (spell_config_reply xid config) ≡ Ok (GetConfigReply config) }
{}

/// So is a reply on queues: the port with which its body begins, and the body (OpenFlow 1.0.0, section 5.3.4).
pub fn queues_reply_is_read()
    ensures { (xid : ℕ) (body : List ℕ) → 8 ≤ length body → length body ≤ 65527 → read_switch (spell_queues_reply xid body) ≡ Ok (QueueGetConfigReply (queues_in body)) }
{}
